// What an entry answers, as C sees it.

// Without a fault: the text's lines and branches, and zeros. With one: its line, the numbers of its
// layer and code, and zeros.
#[repr(C)]
#[derive(Clone, Copy)]
pub struct Answer {
    pub lines: usize,
    pub branches: usize,
    pub line: usize,
    pub layer: u8,
    pub code: u16,
}
