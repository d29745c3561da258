// A text, or bytes, written to a file.
ghost use Rattle.std.specs.Prelude.{◌≡◌, ℕ, ◌<◌, ◌≤◌, ◌++◌, take, drop, length, IfErr, OnOk, OnErr};
ghost use Rattle.asm86_line_types.specs.Written.{written_text};
ghost use Rattle.host.specs.Host.{SameFaults, OnlyWrites, Rewrites, WriteFault};
ghost use Rattle.host_files.specs.Transfer.{extended, IsBeforeOrPart};

use crate::piece::Piece;
use crate::producer::Producer;
use asm86_line_types::{Line86, write_line};
use host::{Host, HostFault};

/// Writes the text of lines to a file, in pieces of 4,096 bytes but the last, and takes no memory of its own. After a fault the
/// file is as before, or holds first bytes of the text, but not all.
pub fn write_out<H: Host>(host: &mut H, name: &str, lines: &[Line86]) -> Result<(), HostFault>
    ensures only { OnlyWrites (H.state host.old) (H.state host.new) name.now }
    ensures ok { OnOk result (Rewrites (H.state host.old) (H.state host.new) name.now (written_text lines.now)) }
    ensures counted { OnOk result (SameFaults (H.state host.old) (H.state host.new)) }
    ensures fault { OnErr result
        (IsBeforeOrPart (H.state host.old) (H.state host.new) name.now (written_text lines.now)) }
    ensures failed { IfErr result (WriteFault (H.state host.old) (H.state host.new)) }
{
    host.begin(name)?;
    let mut waiting = Piece::new();
    for line in lines {
        add(host, name, &mut waiting, write_line(line.stmt).as_slice())?;
    }
    append_all(host, name, waiting.as_slice())
}

/// Writes bytes to a file, and takes no memory of its own. After a fault the file is as before, or holds first bytes of them, but
/// not all.
pub fn write_bytes<H: Host>(host: &mut H, name: &str, bytes: &[u8]) -> Result<(), HostFault>
    ensures only { OnlyWrites (H.state host.old) (H.state host.new) name.now }
    ensures ok { OnOk result (Rewrites (H.state host.old) (H.state host.new) name.now bytes.now) }
    ensures counted { OnOk result (SameFaults (H.state host.old) (H.state host.new)) }
    ensures fault { OnErr result
        (IsBeforeOrPart (H.state host.old) (H.state host.new) name.now bytes.now) }
    ensures failed { IfErr result (WriteFault (H.state host.old) (H.state host.new)) }
{
    host.begin(name)?;
    append_all(host, name, bytes)
}

/// Writes to a file all bytes that a producer has yet to give, in pieces of up to 4,096 bytes, and takes no memory of its own. After a
/// fault the file is as before, or holds first bytes of them, but not all.
pub fn write_from<H: Host, P: Producer>(
    host: &mut H,
    name: &str,
    producer: &mut P,
) -> Result<(), HostFault>
    ensures only { OnlyWrites (H.state host.old) (H.state host.new) name.now }
    ensures ok { OnOk result (Rewrites (H.state host.old) (H.state host.new) name.now (P.left producer.old)) }
    ensures counted { OnOk result (SameFaults (H.state host.old) (H.state host.new)) }
    ensures fault { OnErr result
        (IsBeforeOrPart (H.state host.old) (H.state host.new) name.now (P.left producer.old)) }
    ensures failed { IfErr result (WriteFault (H.state host.old) (H.state host.new)) }
{
    host.begin(name)?;
    let mut waiting = Piece::new();
    while producer.produce(&mut waiting) {
        if !waiting.has_room() {
            append_all(host, name, waiting.as_slice())?;
            waiting = Piece::new();
        }
    }
    append_all(host, name, waiting.as_slice())
}

// Adds bytes to a piece that is not full, and appends it to the file once it is.
fn add<H: Host>(host: &mut H, name: &str, piece: &mut Piece, more: &[u8]) -> Result<(), HostFault>
    requires room { length piece.old < 4096 }
    requires short { length more.now ≤ 40 }
    ensures only { OnlyWrites (H.state host.old) (H.state host.new) name.now }
    ensures ok { OnOk result ((k : ℕ)
        × ((H.state host.new).file name.now
        ≡ extended ((H.state host.old).file name.now) (take k (piece.old ++ more.now)))
        × (piece.new ≡ drop k (piece.old ++ more.now))) }
    ensures room { OnOk result (length piece.new < 4096) }
    ensures counted { OnOk result (SameFaults (H.state host.old) (H.state host.new)) }
    ensures fault { OnErr result ((k : ℕ) × (k < length (piece.old ++ more.now)) × ((H.state host.new).file name.now
        ≡ extended ((H.state host.old).file name.now) (take k (piece.old ++ more.now)))) }
    ensures failed { IfErr result (WriteFault (H.state host.old) (H.state host.new)) }
{
    let taken = piece.fill(more);
    if piece.is_full() {
        append_all(host, name, piece.as_slice())?;
        *piece = Piece::new();
        piece.fill(&more[taken..]);
    }
    Ok(())
}

// Appends all of the bytes to the file, in as many pieces as the host takes them.
fn append_all<H: Host>(host: &mut H, name: &str, bytes: &[u8]) -> Result<(), HostFault>
    ensures only { OnlyWrites (H.state host.old) (H.state host.new) name.now }
    ensures ok { OnOk result ((H.state host.new).file name.now
        ≡ extended ((H.state host.old).file name.now) bytes.now) }
    ensures counted { OnOk result (SameFaults (H.state host.old) (H.state host.new)) }
    ensures fault { OnErr result ((k : ℕ) × (k < length bytes.now) × ((H.state host.new).file name.now
        ≡ extended ((H.state host.old).file name.now) (take k bytes.now))) }
    ensures failed { IfErr result (WriteFault (H.state host.old) (H.state host.new)) }
{
    let mut done = 0;
    while done < bytes.len() {
        done += host.append(name, &bytes[done..])?;
    }
    Ok(())
}
