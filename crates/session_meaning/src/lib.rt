// The vocabulary of an exam session: the push-button desk, the log of answers, the session report.
#![tactic(auto)]

use meaning::MAX_ELEMENTS;

// The push-button desk: the bytes at addresses 0 to 4, how many elements there are, and the state of each, in the file and now. Every
// value has a meaning: elements above 256 mean the 256 that there is room for, bits 2 to 7 of the status mean nothing, nor do states past
// the elements.
// C has the same struct: so its bytes are numbers, and its states two arrays.
#[repr(C)]
#[derive(Clone, Copy)]
pub struct Desk {
    pub control: u8,
    pub status: u8,
    pub number_low: u8,
    pub number_high: u8,
    pub state: u8,
    pub elements: u16,
    pub file_state: [u8; MAX_ELEMENTS],
    pub element_state: [u8; MAX_ELEMENTS],
}

// What a field of a line of the log of answers means.
#[derive(Clone, Copy)]
pub enum AnswerField {
    Candidate,
    Question,
    Sequence,
    Answer,
}

// A line of the log: what a candidate sent.
#[derive(Clone, Copy)]
pub struct Sent {
    pub candidate: u32,
    pub question: u32,
    pub sequence: u32,
    pub answer: u32,
}

// A mark record: what a candidate gained of the marks possible in a question.
#[repr(C)]
#[derive(Clone, Copy)]
pub struct Mark {
    pub candidate: u16,
    pub question: u16,
    pub gained: u16,
    pub possible: u16,
}
