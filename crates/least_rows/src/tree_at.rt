/// A tree of a seat from the unit `place` on, with these numbers of chords carried in and out.
#[derive(Clone, Copy)]
pub struct TreeAt {
    pub seat: u32,
    pub place: u16,
    pub from: u8,
    pub to: u8,
}
