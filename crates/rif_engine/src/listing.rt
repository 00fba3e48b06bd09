//! How the chosen instance is found: by listing each state's conflict set from scratch. Nothing else in the crate
//! knows how.
ghost use Rattle.std.specs.Prelude.{◌≡◌, IfOk, None, OnErr, OnOk, Some};
ghost use Rattle.prd_relation.specs.Choice.{chosen_instance};
ghost use Rattle.prd_relation.specs.History.{first_history, moments_of};
ghost use Rattle.prd_relation.specs.RuleSystem.{system_of};
ghost use Rattle.rif_engine.specs.Listings.{moments_seen};

use prd_relation::{Plain, choose_plain};
use rif_facts::Facts;
use rif_values::{Instance, OutOfMemory};
use safe_rules::SafeDoc;
use std::alloc::Global;

/// The states of a history, each listed but the newest, which is listed when it is asked for. So a new state is noted
/// without memory, and a call that is refused has nothing to take back.
#[derive(Drop)]
pub struct Listing {
    pub listed: Plain,
    pub unlisted: Option<Unlisted>,
}

/// The newest state, not listed yet: the instance whose firing led to it, where one did.
#[derive(Drop)]
pub struct Unlisted {
    pub pick: Option<Instance>,
}

impl Listing {
    /// The listing of the empty state alone, at the cost of listing its conflict set.
    pub fn start(alloc: Global, doc: &SafeDoc) -> Result<Listing, OutOfMemory>
        ensures listed { IfOk result (λ listing. listing.listed ≡ moments_of (system_of doc.now) first_history) }
        ensures unlisted { IfOk result (λ listing. listing.unlisted ≡ None) }
    {
        Ok(Listing {
            listed: Plain::start(alloc, doc)?,
            unlisted: None,
        })
    }

    /// Lists the newest state, where it isn't listed. After want of memory the listing is as before.
    pub fn list_newest(
        &mut self,
        alloc: Global,
        doc: &SafeDoc,
        facts: &Facts,
    ) -> Result<(), OutOfMemory>
        ensures listed { OnOk result
            (self.new.listed ≡ moments_seen (system_of doc.now) self.old facts.now.list) }
        ensures unlisted { OnOk result (self.new.unlisted ≡ None) }
        ensures err { OnErr result (moments_seen (system_of doc.now) self.new facts.now.list
            ≡ moments_seen (system_of doc.now) self.old facts.now.list) }
    {
        let pick = match &self.unlisted {
            Some(newest) => copy_pick(&newest.pick)?,
            None => return Ok(()),
        };
        self.listed.push(alloc, doc, facts, pick)?;
        self.unlisted = None;
        Ok(())
    }

    /// The chosen instance, or None where nothing is eligible. The history that the listing stands for is as before.
    pub fn chosen(
        &mut self,
        alloc: Global,
        doc: &SafeDoc,
        facts: &Facts,
    ) -> Result<Option<Instance>, OutOfMemory>
        ensures chosen { IfOk result (λ chosen. chosen ≡ chosen_instance (system_of doc.now)
            (moments_seen (system_of doc.now) self.old facts.now.list)) }
        ensures kept { moments_seen (system_of doc.now) self.new facts.now.list
            ≡ moments_seen (system_of doc.now) self.old facts.now.list }
        ensures ready { OnOk result (self.new.unlisted ≡ None) }
    {
        self.list_newest(alloc, doc, facts)?;
        choose_plain(doc, &self.listed)
    }

    /// Notes one more state, and the instance whose firing led to it, where one did. It takes no memory. The state
    /// before is listed.
    pub fn note(&mut self, pick: Option<Instance>)
        requires { self.old.unlisted ≡ None }
        ensures { self.new ≡ record self.old { unlisted = Some (record { pick = pick }) } }
    {
        self.unlisted = Some(Unlisted { pick });
    }
}

fn copy_pick(pick: &Option<Instance>) -> Result<Option<Instance>, OutOfMemory>
    ensures { IfOk result (λ copy. copy ≡ pick.now) }
{
    match pick {
        Some(instance) => Ok(Some(instance.copy()?)),
        None => Ok(None),
    }
}
