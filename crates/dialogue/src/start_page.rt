// The start page: what cells 5CH to 0FFH hold as a program begins.
ghost use Rattle.std.specs.Prelude.{◌≡◌, ◌≤◌, ◌+◌, ◌++◌, length, map, take, drop, replicate};
ghost use Rattle.std.specs.List.{list_all, before_first, after_first};
ghost use Rattle.std.specs.Char.{to_ascii_uppercase};
ghost use Rattle.dialogue.specs.StartPage.{is_printable, is_tail, is, from_word, first_word, after_word, drive_of, file_in_tail, field, control_block, tail_area, page_of_tail};

use std::marker::Model;

/// The most bytes that a command's tail may have.
const MAX_TAIL: usize = 126;

/// Cells 5CH to 0FFH: two file control blocks of 16 bytes, four zeros, and the 128 bytes of the command's tail.
#[derive(Drop)]
pub struct Page {
    cells: [u8; 164],
}

impl Model for Page {
    ghost use Rattle.std.specs.Prelude.{ℕ, List};

    ghost Value = { List ℕ };

    ghost view = { λ p. p.cells };
}

impl Page {
    /// The page of a command's tail; None where the tail has more than 126 bytes or one outside 20H to 7EH.
    pub fn of_tail(tail: &[u8]) -> Option<Page>
        ensures { result ≡ page_of_tail tail.now }
    {
        if !is_tail(tail) {
            return None;
        }
        let upper = in_upper_case(tail);
        let text = &upper[..tail.len()];
        let (first, rest) = next_word(text);
        let (second, _) = next_word(rest);
        let mut cells = zeros::<164>();
        put(&mut cells, 0, &control_block(first));
        put(&mut cells, 16, &control_block(second));
        put(&mut cells, 36, &tail_area(text));
        Some(Page { cells })
    }

    /// The bytes from cell 5CH up.
    pub fn bytes(&self) -> &[u8]
        ensures value { result.now ≡ self.now }
        ensures len { length result.now ≡ 164 }
    {
        &self.cells
    }
}

/// Whether a command may have this tail.
fn is_tail(tail: &[u8]) -> bool
    ensures { result ≡ is_tail tail.now }
{
    tail.len() <= MAX_TAIL && are_printable(tail)
}

/// Whether each byte is from 20H to 7EH.
fn are_printable(text: &[u8]) -> bool
    ensures { result ≡ list_all is_printable text.now }
{
    for byte in text {
        if !matches!(byte, 0x20..=0x7E) {
            return false;
        }
    }
    true
}

/// The tail in upper case, and bytes after it.
fn in_upper_case(tail: &[u8]) -> [u8; MAX_TAIL]
    requires { length tail.now ≤ 126 }
    ensures { take (length tail.now) result ≡ map to_ascii_uppercase tail.now }
{
    let mut text = zeros::<MAX_TAIL>();
    for (k, byte) in tail.iter().enumerate() {
        text[k] = byte.to_ascii_uppercase();
    }
    text
}

/// What stands before the first `sign`, and after it.
fn split_once(text: &[u8], sign: u8) -> (&[u8], &[u8])
    ensures before { result.0.now ≡ before_first (is sign) text.now }
    ensures after { result.1.now ≡ after_first (is sign) text.now }
{
    for k in 0..text.len() {
        if text[k] == sign {
            return (&text[..k], &text[k + 1..]);
        }
    }
    (text, &[])
}

/// The text without the blanks at its front.
fn from_word(text: &[u8]) -> &[u8]
    ensures { result.now ≡ from_word text.now }
{
    let mut left = text;
    while let [b' ', rest @ ..] = left {
        left = rest;
    }
    left
}

/// The first word, and what stands after it.
fn next_word(text: &[u8]) -> (&[u8], &[u8])
    ensures word { result.0.now ≡ first_word text.now }
    ensures rest { result.1.now ≡ after_word text.now }
{
    split_once(from_word(text), b' ')
}

/// The drive that a word begins with, and the rest of the word.
fn split_drive(word: &[u8]) -> (u8, &[u8])
    ensures drive { result.0 ≡ drive_of word.now }
    ensures file { result.1.now ≡ file_in_tail word.now }
{
    match word {
        [letter @ b'A'..=b'P', b':', file @ ..] => (*letter - 0x40, file),
        _ => (0, word),
    }
}

/// A part of a file's name in its field.
fn field<const N: usize>(part: &[u8]) -> [u8; N]
    ensures { result ≡ field N part.now }
{
    let fill = if part.contains(&b'*') { b'?' } else { b' ' };
    let (stem, _) = split_once(part, b'*');
    let mut bytes = [fill; N];
    put(&mut bytes, 0, &stem[..stem.len().min(N)]);
    bytes
}

/// Cells that hold 0.
fn zeros<const N: usize>() -> [u8; N]
    ensures { result ≡ replicate N 0 }
{
    [0; N]
}

/// Puts bytes into a list of cells, from a place on.
fn put(cells: &mut [u8], start: usize, bytes: &[u8])
    requires { start + length bytes.now ≤ length cells.old }
    ensures { cells.new ≡ take start cells.old ++ (bytes.now ++ drop (start + length bytes.now) cells.old) }
{
    cells[start..start + bytes.len()].copy_from_slice(bytes);
}

/// The first 16 bytes of the file control block of a word.
fn control_block(word: &[u8]) -> [u8; 16]
    ensures { result ≡ control_block word.now }
{
    let (drive, file) = split_drive(word);
    let (name, kind) = split_once(file, b'.');
    let mut block = zeros::<16>();
    put(&mut block, 0, &[drive]);
    put(&mut block, 1, &field::<8>(name));
    put(&mut block, 9, &field::<3>(kind));
    block
}

/// The 128 bytes at 80H of a tail.
fn tail_area(text: &[u8]) -> [u8; 128]
    requires { length text.now ≤ 126 }
    ensures { result ≡ tail_area text.now }
{
    let mut area = zeros::<128>();
    if !text.is_empty() {
        put(&mut area, 0, &[text.len() as u8 + 1, b' ']);
        put(&mut area, 2, text);
    }
    area
}
