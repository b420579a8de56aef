//! Where everything lies, brought up to date.
ghost use Rattle.std.specs.Prelude.{◌≡◌, OnErr, OnOk, length};
ghost use Rattle.wf_flat.specs.Ordered.{IsOrdered};
ghost use Rattle.wf_driver.specs.Housing.{AreHomesOf, AreOwnHomesOf, homes_now, own_homes};

use std::alloc::Global;
use wf_flat::{Entry, Flat};
use wf_outside::Memory;
use wf_tables::{Homes, change_tenants};

// Homes that account for some of the entries come to account for all. It takes a pass over the
// other entries, and one over all that lies in frames where one of them changes that.
fn account_homes(
    alloc: Global,
    homes: &mut Homes,
    accounted: &mut usize,
    entries: &[Entry],
    flat: &Flat,
) -> Result<(), Memory>
    requires of { AreHomesOf homes.old accounted.old entries.now flat.now }
    requires ordered { IsOrdered flat.now }
    ensures homes { OnOk result
        (homes.new ≡ homes_now homes.old accounted.old entries.now flat.now) }
    ensures all { OnOk result (accounted.new ≡ length entries.now) }
    ensures err { OnErr result ((homes.new ≡ homes.old) × (accounted.new ≡ accounted.old)) }
{
    let made = &entries[*accounted..];
    if change_tenants(made) {
        *homes = homes.renewed(alloc, made, flat)?;
    }
    *accounted = entries.len();
    Ok(())
}

/// Homes, if there are some, that account for some of the entries come to account for all. It takes
/// a pass over the other entries, and one over all that lies in frames where one of them changes
/// that; and no time where there are none.
///
/// # Errors
///
/// `Memory` where it runs out; nothing has changed then.
pub fn account(
    alloc: Global,
    homes: &mut Option<Homes>,
    accounted: &mut usize,
    entries: &[Entry],
    flat: &Flat,
) -> Result<(), Memory>
    requires of { AreOwnHomesOf homes.old accounted.old entries.now flat.now }
    requires ordered { IsOrdered flat.now }
    ensures homes { OnOk result
        (homes.new ≡ own_homes homes.old accounted.old entries.now flat.now) }
    ensures all { OnOk result (accounted.new ≡ length entries.now) }
    ensures err { OnErr result ((homes.new ≡ homes.old) × (accounted.new ≡ accounted.old)) }
{
    match homes {
        Some(homes) => account_homes(alloc, homes, accounted, entries, flat),
        None => {
            *accounted = entries.len();
            Ok(())
        }
    }
}
