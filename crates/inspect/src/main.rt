//! Walks plans through two example sites, moment by moment: where each carrier stands, through whom it is reached from the base,
//! whether the configuration is in contact, and who is lost.
#![tactic(auto)]

mod examples;
mod walk;

use walk::Walk;

fn main(rt: HostRuntime) -> anyhow::Result<()> {
    let site = &examples::galleries()?;
    println!(rt; "Six places in two galleries, each carrier by its shortest way:")?;
    let plan = &[[1, 4], [2, 5], [3, 5]];
    println!(rt; "{}", Walk { site, plan })?;
    println!(rt; "The same round, with a wait of carrier 2:")?;
    let plan = &[[1, 4], [2, 4], [3, 5]];
    println!(rt; "{}", Walk { site, plan })?;

    let site = &examples::warm_hall()?;
    println!(rt;
        "A hall of 3 rows and 6 columns, carrier 1 to the far end, carriers 2 and 3 as relays:"
    )?;
    let plan = &[[1, 6, 7], [2, 1, 2], [3, 2, 3], [4, 2, 4], [5, 2, 4]];
    println!(rt; "{}", Walk { site, plan })?;
    println!(rt; "The same, straight through a wall:")?;
    let plan = &[[7, 1, 2], [8, 2, 3], [10, 2, 4]];
    println!(rt; "{}", Walk { site, plan })?;
    Ok(())
}
