use rows::operators::Operator;

// The five bodies of a task file. Anybody may make one; the reader's are parts of the file and sound.
#[derive(Clone, Copy)]
pub struct Task<'a> {
    pub values: &'a [u8],
    pub start: &'a [u8],
    pub goal: &'a [u8],
    pub moves: &'a [u8],
    pub names: &'a [u8],
}

// A move as it lies in a task's body of moves.
#[derive(Clone, Copy)]
pub struct Step<'a> {
    pub price: u32,
    pub operator: Operator<'a>,
}
