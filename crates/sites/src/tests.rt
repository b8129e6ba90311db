// What a walk over a set gives.
#[test]
fn sites_of_eleven(rt: HostRuntime) {
    let mut walk = crate::each(11);
    let first = walk.next();
    let second = walk.next();
    let third = walk.next();
    let end = walk.next();
    assert_eq!(rt; first, Some(0));
    assert_eq!(rt; second, Some(1));
    assert_eq!(rt; third, Some(3));
    assert_eq!(rt; end, None);
}

#[test]
fn sites_of_all_and_none(rt: HostRuntime) {
    assert_eq!(rt; crate::each(255).count(), 8);
    assert_eq!(rt; crate::each(0).count(), 0);
}
