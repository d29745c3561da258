// Sets of addresses.
use base::AddressSet;
use std::test::Fail;

#[test]
fn sets_have_addresses(rt: HostRuntime) -> Result<(), Fail> {
    let mut set = AddressSet::new(rt.alloc())?;
    set.insert(0);
    set.insert(0xFFFF);
    set.insert(0);
    assert!(rt; set.contains(0) && set.contains(0xFFFF));
    assert!(rt; !set.contains(1) && !set.contains(0xFFFE));
    Ok(())
}
