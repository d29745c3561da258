// The program over files in memory: `host` and `xlt_app`.
use crate::source::SOURCE;
use crate::texts::image_of;
use host::{Host, HostFault, MemHost};
use std::alloc::{AllocError, Global};
use std::test::Fail;
use xlt_app::{write_bytes, write_out, xlt};

fn words(alloc: Global, given: &[&str]) -> Result<Vec<String>, AllocError> {
    let mut words = Vec::new(alloc);
    for word in given {
        words.push(String::from_str(alloc, word)?)?;
    }
    Ok(words)
}

#[test]
fn a_host_in_memory(rt: HostRuntime) -> Result<(), Fail> {
    let mut host = MemHost::new(rt.alloc());
    host.put("IN", b"ABC")?;
    host.fail_at(2)?;
    let mut piece = [0; 4];
    assert!(rt; host.read("IN", 1, &mut piece) == Ok(2) && piece[1] == b'C');
    assert!(rt; host.begin("OUT") == Err(HostFault::Failed));
    assert!(rt; host.begin("OUT").is_ok() && host.append("OUT", b"D") == Ok(1));
    assert!(rt; host.file("OUT") == Some(b"D"));
    assert!(rt; host.say(b"E") == Ok(1) && host.said() == b"E".as_slice());
    Ok(())
}

#[test]
fn lines_and_bytes_are_written(rt: HostRuntime) -> Result<(), Fail> {
    let mut host = MemHost::new(rt.alloc());
    assert!(rt; write_out(&mut host, "OUT", &[]).is_ok());
    assert!(rt; host.file("OUT") == Some(b""));
    assert!(rt; write_bytes(&mut host, "OUT", b"D").is_ok());
    assert!(rt; host.file("OUT") == Some(b"D"));
    Ok(())
}

#[test]
fn a_source_is_run(rt: HostRuntime) -> Result<(), Fail> {
    let alloc = rt.alloc();
    let mut host = MemHost::new(alloc);
    host.put("IN", SOURCE)?;
    assert!(rt; xlt(alloc, words(alloc, &["run80", "IN"])?, &mut host) == 0);
    assert!(rt; host.said() == b"02 41\nend\nended after 4 instructions\n".as_slice());
    assert!(rt; image_of(alloc, b"CSEG\nEND\n").is_ok());
    Ok(())
}
