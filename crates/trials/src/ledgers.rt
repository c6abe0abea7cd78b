use accounts::{Account, AccountRefusal};
use std::test::Fail;

#[test]
fn fills_two_frames(rt: HostRuntime) -> Result<(), Fail> {
    let mut account = Account::new(2, 1, 3)?;
    let first = [account.offer(1), account.offer(1)];
    let second = [account.offer(1), account.offer(1)];
    assert_eq!(rt; first, [Ok(1), Ok(1)]);
    assert_eq!(rt; second, [Ok(2), Ok(2)]);
    assert_eq!(rt; account.offer(1), Err(AccountRefusal::WindowSpent));
    Ok(())
}

#[test]
fn pays_an_overdraft_back(rt: HostRuntime) -> Result<(), Fail> {
    let mut account = Account::new(2, 4, 3)?;
    assert_eq!(rt; account.offer(4), Ok(1));
    assert_eq!(rt; account.offer(1), Err(AccountRefusal::WindowSpent));
    account.shift()?;
    assert_eq!(rt; account.offer(1), Ok(3));
    Ok(())
}

#[test]
fn refuses_sizes(rt: HostRuntime) -> Result<(), Fail> {
    let mut account = Account::new(4096, 64, 8)?;
    assert_eq!(rt; account.offer(0), Err(AccountRefusal::SizeRange));
    assert_eq!(rt; account.offer(65), Err(AccountRefusal::SizeRange));
    assert_eq!(rt; account.offer(64), Ok(1));
    Ok(())
}

#[test]
fn gives_figures(rt: HostRuntime) -> Result<(), Fail> {
    let account = Account::new(2, 4, 3)?;
    assert_eq!(rt; account.share(3), 9);
    let bounds = account.stretch(4);
    assert_eq!(rt; (bounds.least, bounds.most), (5, 11));
    Ok(())
}

#[test]
fn carries_no_slots_over(rt: HostRuntime) -> Result<(), Fail> {
    let mut account = Account::new(3, 1, 2)?;
    assert_eq!(rt; account.offer(1), Ok(1));
    account.shift()?;
    for _ in 0..3 {
        assert_eq!(rt; account.offer(1), Ok(2));
    }
    assert_eq!(rt; account.offer(1), Err(AccountRefusal::WindowSpent));
    Ok(())
}

#[test]
fn terms_at_their_edges(rt: HostRuntime) -> Result<(), Fail> {
    for (slots, largest, window, number) in [
        (0, 0, 1, 1),
        (1, 1, 9, 1),
        (0, 0, 2, 3),
        (4097, 1, 2, 3),
        (1, 0, 2, 4),
        (1, 65, 8, 4),
    ] {
        let refused = Account::new(slots, largest, window).err();
        assert_eq!(rt; refused.map(|refusal| refusal.number()), Some(number));
    }
    assert!(rt; Account::new(1, 1, 2).is_ok());
    assert!(rt; Account::new(4096, 64, 8).is_ok());
    Ok(())
}
