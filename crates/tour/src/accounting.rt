use crate::stop::Result;
use accounts::Account;

/// Offers a packet, and prints the frame that it gets.
fn show_offer(rt: &impl Print, account: &mut Account, size: u32) -> Result<()> {
    match account.offer(size) {
        Ok(frame) => {
            let balance = account.balance();
            println!(rt; "  packet of {size} gets frame {frame}, balance {balance}")?;
        }
        Err(refusal) => {
            let number = refusal.number();
            println!(rt; "  packet of {size} refused, number {number}: {refusal}")?;
        }
    }
    Ok(())
}

/// A camera's burst into its account, and what the account promises.
pub fn show_account(rt: &impl Print, slots: u32, largest: u32, window: u32) -> Result<()> {
    let mut account = Account::new(slots, largest, window)?;
    println!(rt; "")?;
    println!(rt;
        "Account: {slots} slots of each frame, packets of up to {largest} flits, window of {window} frames"
    )?;
    for size in [64, 10, 24, 1, 1] {
        show_offer(rt, &mut account, size)?;
    }
    account.shift()?;
    let head = account.head();
    println!(rt; "  the window shifts to head frame {head}")?;
    show_offer(rt, &mut account, 1)?;
    for frames in [2, window] {
        let share = account.share(frames);
        println!(rt; "  any {frames} frames in a row hold at most {share} flits of the flow")?;
    }
    Ok(())
}
