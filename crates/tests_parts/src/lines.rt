// How a line loses its CR, and how it is held while it is not complete.
use base::{HeldLine, without_cr};

fn held(bytes: &[u8]) -> HeldLine {
    let mut line = HeldLine::new();
    for b in bytes {
        line.push(*b);
    }
    line
}

#[test]
fn one_carriage_return_before_the_line_feed_is_no_part_of_the_line(rt: HostRuntime) {
    let rows: [(&[u8], &[u8]); 5] = [
        (b"", b""),
        (b"HLT", b"HLT"),
        (b"HLT\r", b"HLT"),
        (b"HLT\r\r", b"HLT\r"),
        (b"\rHLT", b"\rHLT"),
    ];
    for (line, want) in rows {
        assert!(rt; without_cr(line) == want);
    }
}

#[test]
fn a_line_is_held_up_to_256_bytes(rt: HostRuntime) {
    assert!(rt; held(b"").line() == Some(b"".as_slice()));
    assert!(rt; held(b"MOV A,M").line() == Some(b"MOV A,M".as_slice()));
    let mut text = [b' '; 256];
    text[255] = b'!';
    let mut longest = held(&text);
    assert!(rt; longest.line() == Some(text.as_slice()));
    longest.push(b'?');
    assert!(rt; longest.line().is_none());
    longest.push(b'?');
    assert!(rt; longest.line().is_none());
}
