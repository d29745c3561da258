// The host of real files as it runs. What `MemHost` answers is proved exactly by its contract, and the cases of `cases_cmd` try each
// of its calls, failing ones too. That a host's clauses are enough to read and to write whole files is proved where that is done, over
// any host.
use host::{Host, HostFault, RealHost};
use std::test::Fail;
use std::{env, fs, process};

/// Whether a text is 5,000 sevens and `end`.
fn is_written(text: &[u8]) -> bool {
    text.get(..5000) == Some([7; 5000].as_slice()) && text.get(5000..) == Some(b"end".as_slice())
}

// Whether a file that is missing is not read, and is read as it was written.
fn is_filled<H: Host>(host: &mut H, name: &str) -> bool {
    let mut into = [0; 8];
    host.read(name, 0, &mut into) == Err(HostFault::Failed)
        && host.begin(name) == Ok(())
        && host.append(name, &[7; 5000]) == Ok(5000)
        && host.append(name, b"end") == Ok(3)
        && host.read(name, 4999, &mut into) == Ok(4)
        && into == [7, b'e', b'n', b'd', 0, 0, 0, 0]
}

// Whether a file that is begun again has nothing, and a name that is none cannot be written.
fn is_emptied<H: Host>(host: &mut H, name: &str) -> bool {
    host.begin(name) == Ok(())
        && host.read(name, 0, &mut [0; 8]) == Ok(0)
        && host.append("", b"x") == Err(HostFault::Failed)
}

#[test]
fn real_files(rt: HostRuntime) -> Result<(), Fail> {
    let alloc = rt.alloc();
    let number = process::id(rt.process());
    let path = env::temp_dir(&rt)?.join(alloc, format!(in alloc; "host-test-{number}")?)?;
    let name = path.as_str();
    let mut host = RealHost::new(rt);
    let is_filled = is_filled(&mut host, name);
    let text = fs::read(&rt, name);
    let is_emptied = is_emptied(&mut host, name);
    fs::remove_file(&rt, name)?;
    assert!(rt; is_filled && is_emptied);
    assert!(rt; is_written(text?.as_slice()));
    Ok(())
}
