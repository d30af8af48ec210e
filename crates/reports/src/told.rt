// What a report tells.
use answers::Answer;

// Nuggets moved, flakes present, and the present flakes of moved nuggets.
#[derive(Clone, Copy, Default)]
pub struct Counts {
    pub moved: u32,
    pub flakes: u32,
    pub done: u32,
}

// "N, nuggets moved (epoch equal to the head's), left, flakes present, and share", in hundredths of a percent;
// then the present flakes in moved nuggets.
// No Result: a refused report has zeros in all its numbers, and `report_of` says so.
#[derive(Clone, Copy)]
pub struct Report {
    pub answer: Answer,
    pub n: u32,
    pub moved: u32,
    pub left: u32,
    pub flakes: u32,
    pub share: u32,
    pub done: u32,
}
