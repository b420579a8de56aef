//! An index of homes, and a set of tenants.
ghost use Rattle.std.specs.Prelude.{◌∷◌, ◌++◌, [], List, ℕ, OnOk, IfOk, map};
ghost use Rattle.wf_homes.specs.Homes as homes;
ghost use Rattle.wf_tables.specs.Values.{home_value, tenant_value};
ghost use Rattle.wf_tables.specs.Index.{IsIndex, IsSet};

use crate::homes::{Home, Tenant};
use std::alloc::Global;
use std::collections::{BTreeMap, BTreeSet};
use wf_outside::Memory;

// One more home, behind those that are there.
fn note_home(index: &mut BTreeMap<Tenant, u32>, home: Home) -> Result<(), Memory>
    ensures { OnOk result ((homes : List (homes.Tenant × ℕ)) → IsIndex index.old homes
        → IsIndex index.new (homes ++ home_value home ∷ [])) }
{
    if !index.contains_key(&home.tenant) {
        index.insert(home.tenant, home.frame)?;
    }
    Ok(())
}

/// An index of the homes: the frame of each tenant. It takes time in the homes, and in the
/// logarithm of their count.
pub fn index_of(alloc: Global, homes: &[Home]) -> Result<BTreeMap<Tenant, u32>, Memory>
    ensures { IfOk result (λ index. IsIndex index (map home_value homes.now)) }
{
    let mut index = BTreeMap::new(alloc);
    for home in homes {
        note_home(&mut index, *home)?;
    }
    Ok(index)
}

// One more tenant.
fn note_tenant(set: &mut BTreeSet<Tenant>, tenant: Tenant) -> Result<(), Memory>
    ensures { OnOk result ((tenants : List homes.Tenant) → IsSet set.old tenants
        → IsSet set.new (tenants ++ tenant_value tenant ∷ [])) }
{
    set.insert(tenant)?;
    Ok(())
}

/// The set of these tenants.
pub fn set_of(alloc: Global, tenants: &[Tenant]) -> Result<BTreeSet<Tenant>, Memory>
    ensures { IfOk result (λ set. IsSet set (map tenant_value tenants.now)) }
{
    let mut set = BTreeSet::new(alloc);
    for tenant in tenants {
        note_tenant(&mut set, *tenant)?;
    }
    Ok(set)
}
