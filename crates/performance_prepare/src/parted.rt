ghost use Rattle.performance_prepare.specs.Groups as groups;
ghost use Rattle.performance_prepare.specs.PartedHands.{AreHandsWith, IsNextKey, IsPartedCost, KeepHeld};
ghost use Rattle.performance_prepare.specs.Parted.{AreTwoHands, IsHand, IsParting};
ghost use Rattle.rhythm_base.specs.declared.limits.TheConstants.{MOST_NOTES};
ghost use Rattle.std.specs.Prelude.{◌≡◌, ◌≤◌, ◌<◌, ◌+◌, ◌*◌, ◌++◌, ◌∷◌, ◌==◌, [], List, ℕ, if◌then◌else◌, length, min};

use hand_borders::BORDERS;

/// The keys of a hand: how many, and the lowest and the highest, 0 and 0 without one.
#[derive(Clone, Copy)]
pub struct Hand {
    pub count: u32,
    pub lowest: u8,
    pub highest: u8,
}

/// No keys.
const NO_KEYS: Hand = Hand {
    count: 0,
    lowest: 0,
    highest: 0,
};

/// The lowest of a hand's keys and one more.
fn lowest_with(hand: Hand, key: u8) -> u8
    ensures { result ≡ (if hand.count == 0 then key else min hand.lowest key) }
{
    if hand.count == 0 {
        key
    } else {
        hand.lowest.min(key)
    }
}

/// A hand with one key more.
fn with_key(hand: Hand, key: u8) -> Hand
    requires { hand.count < 4_000_000_000 }
    ensures { (keys : List ℕ) → IsHand keys hand → IsHand (keys ++ key ∷ []) result }
{
    Hand {
        count: hand.count + 1,
        lowest: lowest_with(hand, key),
        highest: hand.highest.max(key),
    }
}

/// The keys below a border, and the others.
#[derive(Clone, Copy)]
pub struct TwoHands {
    pub left: Hand,
    pub right: Hand,
}

/// The two hands with one key more.
fn with_one(border: u8, hands: TwoHands, key: u8) -> TwoHands
    requires { hands.left.count + hands.right.count < 4_000_000_000 }
    ensures { AreHandsWith border key hands result }
{
    if key < border {
        return TwoHands {
            left: with_key(hands.left, key),
            ..hands
        };
    }
    TwoHands {
        right: with_key(hands.right, key),
        ..hands
    }
}

/// The keys below a border and the others.
fn two_hands(border: u8, keys: &[u8]) -> TwoHands
    requires { length keys.now ≤ MOST_NOTES }
    ensures { AreTwoHands border keys.now result }
{
    let mut hands = TwoHands {
        left: NO_KEYS,
        right: NO_KEYS,
    };
    for key in keys {
        hands = with_one(border, hands, *key);
    }
    hands
}

/// The semitones that the keys of a hand are apart, above an octave.
fn stretch(hand: Hand) -> u64
    ensures stretch { (keys : List ℕ) → IsHand keys hand → result ≡ groups.stretch keys }
    ensures low { result ≤ 255 }
{
    u64::from(hand.highest)
        .saturating_sub(u64::from(hand.lowest))
        .saturating_sub(12)
}

/// How many keys a hand holds that strikes these.
fn held_beside(struck: Hand, held: Hand) -> u64
    ensures keys { KeepHeld struck held result }
    ensures few { result ≤ held.count }
{
    if struck.count == 0 {
        0
    } else {
        u64::from(held.count)
    }
}

/// What a border costs by how it parts the keys of a group.
fn parted(struck: TwoHands, held: TwoHands) -> u64
    ensures cost { IsPartedCost struck held result }
    ensures low { result ≤ 51_000 + 1_000 * (held.left.count + held.right.count) }
{
    let apart = stretch(struck.left) + stretch(struck.right);
    let holding = held_beside(struck.left, held.left) + held_beside(struck.right, held.right);
    100 * apart + 1_000 * holding
}

/// The lowest of the keys at a border or above it, and the last border without one.
fn next_key(hands: TwoHands) -> u8
    ensures { IsNextKey hands result }
{
    if hands.right.count == 0 {
        BORDERS as u8 - 1
    } else {
        hands.right.lowest
    }
}

/// What borders cost up to the next key by how they part the keys of a group: all cost the same.
#[derive(Clone, Copy)]
pub struct Parting {
    /// The last of these borders.
    pub last: u8,
    /// What each costs.
    pub cost: u64,
}

/// What the borders from one on cost, up to the next key.
pub fn parting_from(struck: &[u8], held: &[u8], border: u8) -> Parting
    requires struck { length struck.now ≤ MOST_NOTES }
    requires held { length held.now ≤ 128 }
    ensures parting { IsParting struck.now held.now border result.last result.cost }
    ensures from { border < 129 → border ≤ result.last }
    ensures low { result.cost ≤ 307_000 }
{
    let struck = two_hands(border, struck);
    let held = two_hands(border, held);
    Parting {
        last: next_key(struck).min(next_key(held)),
        cost: parted(struck, held),
    }
}
