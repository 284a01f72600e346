ghost use Rattle.bar_pool.specs.DrawTable.{drawn_view, view_with};
ghost use Rattle.bar_pool.specs.Pool.{RisesWithin};
ghost use Rattle.bar_pool.specs.Workers.{AreThingsOfBoth, HasShare, HaveBuilt, HaveRooms, IsFresh, MayTakeOver};
ghost use Rattle.rhythm_base.specs.Counter.{risen};
ghost use Rattle.rhythm_base.specs.Lists.{Each};
ghost use Rattle.std.specs.Prelude.{◌≡◌, ◌<◌, ◌≤◌, [], ℕ, All, IfOk, IsOk, OnOk, length};
ghost use Rattle.std.specs.Thread.{IsSend, IsSync};

use crate::draws::{Draw, DrawCounts, DrawSeat, DrawTable, HalfShare, SharedDraws, Takeover};
use crate::job::Job;
use crate::places::in_places;
use crate::search::build_searched;
use least_cost::Steps;
use least_rows::Room;
use rhythm_base::Tag;
use rhythm_ports::{Gate, Means};
use std::alloc::AllocError;
use std::mem;
use std::thread::{Threads, join};

/// Draws the next number.
fn draw(shared: &SharedDraws, seat: &mut DrawSeat) -> u64
    requires table { seat.old.table_id ≡ shared.now.table_id }
    requires words { shared.now.table_id.words ≡ 1 }
    requires turn { seat.old.me.0.past < seat.old.me.0.share }
    ensures same { (seat.new.table_id ≡ seat.old.table_id) × (seat.new.id ≡ seat.old.id) }
    ensures view { seat.new.me ≡ (drawn_view seat.old.me.0 result, seat.old.me.1) }
    ensures above { All (λ x. x < result) seat.old.me.0.drawn }
{
    shared.fetch_add::<Draw>(seat, 0, 1)
}

/// Builds the cells whose places among the searched ones one worker draws, each in one atomic step. It stops at the first number past the inputs, and
/// where it wants memory.
fn build_drawn<R: Threads + Sync, G: Gate + Sync, B: Tag, T: Drop + Send, J: Job<T> + Sync>(
    means: &Means<'_, R, G>,
    job: &J,
    searched: &[usize],
    shared: &SharedDraws,
    seat: &mut DrawSeat,
    room: &mut Room,
    builds: &mut Steps<B>,
) -> Result<Vec<(usize, T)>, AllocError>
    requires ready { J.ready job.now }
    requires within { All (λ n. n < J.count job.now) searched.now }
    requires table { seat.old.table_id ≡ shared.now.table_id }
    requires words { shared.now.table_id.words ≡ 1 }
    requires fresh { IsFresh seat.old.me (length searched.now) 1 }
    ensures same { (seat.new.table_id ≡ seat.old.table_id) × (seat.new.id ≡ seat.old.id) }
    ensures share { HasShare seat.new.me (length searched.now) 1 }
    ensures things { IfOk result (HaveBuilt (J.built job.now) searched.now seat.new.me) }
    ensures builds { builds.new ≡ risen builds.old (length seat.new.me.0.drawn) }
{
    let mut things = Vec::new(means.alloc);
    'draws: loop {
        let drawn = draw(shared, seat);
        if drawn >= searched.len() as u64 {
            return Ok(things);
        }
        let drawn = drawn as usize;
        let thing = build_searched(means, job, searched[drawn], room, builds)?;
        things.push((drawn, thing))?;
    }
}

/// What the workers of a seat have built: the seat, the count of the builds, and the things, each with the number that was
/// drawn for it, if there was enough memory.
pub struct Built<B: Tag, T: Drop> {
    pub seat: DrawSeat,
    pub builds: Steps<B>,
    pub things: Result<Vec<(usize, T)>, AllocError>,
}

/// The things of both.
fn together<T: Drop>(
    first: Result<Vec<(usize, T)>, AllocError>,
    second: Result<Vec<(usize, T)>, AllocError>,
) -> Result<Vec<(usize, T)>, AllocError>
    ensures things { AreThingsOfBoth first second result }
    ensures both { IsOk result → IsOk first × IsOk second }
{
    let mut things = first?;
    let mut others = second?;
    things.append(&mut others)?;
    Ok(things)
}

/// One seat takes over what another's workers have built.
fn take_over<B: Tag, T: Drop>(
    shared: &SharedDraws,
    first: Built<B, T>,
    second: Built<B, T>,
) -> Built<B, T>
    requires words { shared.now.table_id.words ≡ 1 }
    requires first_table { first.seat.table_id ≡ shared.now.table_id }
    requires second_table { second.seat.table_id ≡ shared.now.table_id }
    requires seats { MayTakeOver first.seat.me second.seat.me }
    requires first_builds { first.builds ≡ risen 0 (length first.seat.me.0.drawn) }
    requires second_builds { second.builds ≡ risen 0 (length second.seat.me.0.drawn) }
    ensures table { result.seat.table_id ≡ shared.now.table_id }
    ensures view { result.seat.me ≡ (view_with first.seat.me.0 second.seat.me.0, []) }
    ensures things { AreThingsOfBoth first.things second.things result.things }
    ensures both { IsOk result.things → IsOk first.things × IsOk second.things }
    ensures builds { result.builds ≡ risen 0 (length result.seat.me.0.drawn) }
{
    let Built {
        mut seat,
        mut builds,
        things,
    } = first;
    let Built {
        seat: other,
        builds: more,
        things: others,
    } = second;
    shared.join_seat::<Takeover>(&mut seat, other);
    builds.absorb(more);
    Built {
        seat,
        builds,
        things: together(things, others),
    }
}

/// Calls both side by side. What may go to another thread is looked for here, where little else is known.
fn side_by_side<
    R: Threads,
    F: FnOnce() -> Built<B, T> + Send,
    G: FnOnce() -> Built<B, T>,
    B: Tag,
    T: Drop + Send,
>(rt: &R, left: F, right: G) -> (Built<B, T>, Built<B, T>)
    requires { F.pre left × G.pre right }
    ensures first { F.post left result.0 }
    ensures second { G.post right result.1 }
{
    join(rt, left, right)
}

/// Builds the cells whose numbers the one worker of the seat draws. Its room is taken out of its place while it works: no two
/// workers then write to neighbouring memory.
fn build_alone<R: Threads + Sync, G: Gate + Sync, B: Tag, T: Drop + Send, J: Job<T> + Sync>(
    means: &Means<'_, R, G>,
    job: &J,
    searched: &[usize],
    shared: &SharedDraws,
    seat: DrawSeat,
    place: &mut Room,
) -> Built<B, T>
    requires ready { J.ready job.now }
    requires within { All (λ n. n < J.count job.now) searched.now }
    requires table { seat.table_id ≡ shared.now.table_id }
    requires words { shared.now.table_id.words ≡ 1 }
    requires fresh { IsFresh seat.me (length searched.now) 1 }
    ensures table { result.seat.table_id ≡ shared.now.table_id }
    ensures share { HasShare result.seat.me (length searched.now) 1 }
    ensures things { IfOk result.things (HaveBuilt (J.built job.now) searched.now result.seat.me) }
    ensures builds { result.builds ≡ risen 0 (length result.seat.me.0.drawn) }
{
    let mut seat = seat;
    let mut builds = Steps::zero();
    let mut room = mem::replace(place, Room::new(means.alloc));
    let things = build_drawn(
        means,
        job,
        searched,
        shared,
        &mut seat,
        &mut room,
        &mut builds,
    );
    *place = room;
    Built {
        seat,
        builds,
        things,
    }
}

/// Builds the cells whose numbers the workers of the seat draw. They are as many as its share, and each has a room of its own. The
/// seat gives half of its share to another, the workers of both draw side by side, and then it takes over what the other's have built.
#[cycle(build_in_halves)]
pub fn build_in_halves<R: Threads + Sync, G: Gate + Sync, B: Tag, T: Drop + Send, J: Job<T> + Sync>(
    means: &Means<'_, R, G>,
    job: &J,
    searched: &[usize],
    shared: &SharedDraws,
    seat: DrawSeat,
    workers: u64,
    rooms: &mut [Room],
) -> Built<B, T>
    requires ready { J.ready job.now }
    requires within { All (λ n. n < J.count job.now) searched.now }
    requires table { seat.table_id ≡ shared.now.table_id }
    requires words { shared.now.table_id.words ≡ 1 }
    requires rooms { HaveRooms workers rooms.old }
    requires fresh { IsFresh seat.me (length searched.now) workers }
    ensures table { result.seat.table_id ≡ shared.now.table_id }
    ensures share { HasShare result.seat.me (length searched.now) workers }
    ensures things { IfOk result.things (HaveBuilt (J.built job.now) searched.now result.seat.me) }
    ensures builds { result.builds ≡ risen 0 (length result.seat.me.0.drawn) }
{
    if workers == 1 {
        return build_alone(means, job, searched, shared, seat, &mut rooms[0]);
    }
    let half = workers / 2;
    let rest = workers - half;
    let mut seat = seat;
    let other = shared.split_seat::<HalfShare>(&mut seat);
    let (left_rooms, right_rooms) = rooms.split_at_mut(rest as usize);
    let left = move || -> Built<B, T>
        requires sync { IsSync R.row × IsSync G.row × IsSync J.row × IsSend T.row }
        requires ready { J.ready job.now }
        requires within { All (λ n. n < J.count job.now) searched.now }
        requires rooms { HaveRooms rest left_rooms.now }
        requires table { seat.table_id ≡ shared.now.table_id }
        requires words { shared.now.table_id.words ≡ 1 }
        requires fresh { IsFresh seat.me (length searched.now) rest }
        ensures table { result.seat.table_id ≡ shared.entry.now.table_id }
        ensures share { HasShare result.seat.me (length searched.entry.now) rest }
        ensures things { IfOk result.things (HaveBuilt (J.built job.entry.now) searched.entry.now result.seat.me) }
        ensures builds { result.builds ≡ risen 0 (length result.seat.me.0.drawn) }
    { build_in_halves(means, job, searched, shared, seat, rest, left_rooms) };
    let right = move || -> Built<B, T>
        requires sync { IsSync R.row × IsSync G.row × IsSync J.row × IsSend T.row }
        requires ready { J.ready job.now }
        requires within { All (λ n. n < J.count job.now) searched.now }
        requires rooms { HaveRooms half right_rooms.now }
        requires table { other.table_id ≡ shared.now.table_id }
        requires words { shared.now.table_id.words ≡ 1 }
        requires fresh { IsFresh other.me (length searched.now) half }
        ensures table { result.seat.table_id ≡ shared.entry.now.table_id }
        ensures share { HasShare result.seat.me (length searched.entry.now) half }
        ensures things { IfOk result.things (HaveBuilt (J.built job.entry.now) searched.entry.now result.seat.me) }
        ensures builds { result.builds ≡ risen 0 (length result.seat.me.0.drawn) }
    { build_in_halves(means, job, searched, shared, other, half, right_rooms) };
    let (first, second) = side_by_side(means.rt, left, right);
    take_over(shared, first, second)
}

/// Builds the cells by so many workers, who draw the numbers of their cells at a table of one word. Where one of them wants
/// memory the others go on, and the answer is given when all have ended. The things are moved to their places.
pub fn build_by_workers<
    R: Threads + Sync,
    G: Gate + Sync,
    B: Tag,
    T: Drop + Send,
    J: Job<T> + Sync,
>(
    means: &Means<'_, R, G>,
    job: &J,
    searched: &[usize],
    workers: u64,
    rooms: &mut [Room],
    builds: &mut Steps<B>,
) -> Result<Vec<T>, AllocError>
    requires rooms { HaveRooms workers rooms.old }
    requires few_workers { workers ≤ length searched.now }
    requires ready { J.ready job.now }
    requires within { All (λ n. n < J.count job.now) searched.now }
    ensures things { IfOk result (λ v. Each (J.built job.now) searched.now v.items) }
    ensures builds { OnOk result (builds.new ≡ risen builds.old (length searched.now)) }
    ensures most { RisesWithin builds.old builds.new (length searched.now) }
{
    let count = searched.len();
    let counts = DrawCounts {
        inputs: count as u64,
        workers,
    };
    let (table, seat) = DrawTable::of_words(means.alloc, &[0], &counts)?;
    let Built {
        seat,
        builds: own,
        things,
    } = build_in_halves(means, job, searched, &table.shared, seat, workers, rooms);
    builds.absorb(own);
    table.close_with(seat).free();
    in_places(means.alloc, things?, count)
}
