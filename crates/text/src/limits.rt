// How many statements and places a board has.
#[derive(Clone, Copy)]
pub struct Limits {
    pub statements: u16,
    pub places: u16,
}
