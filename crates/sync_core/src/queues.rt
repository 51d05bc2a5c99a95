ghost use Rattle.std.specs.Prelude.{◌≡◌, ◌≢◌, ℕ, ◌+◌, ◌*◌, ◌^◌, ◌<◌, ◌≤◌, [], All, Contains, true, false, ◌==◌, filter, length, vec_len, vec_capacity, OnOk, OnErr, OnSome, IfSome, IfNone, IfOk, Some};
ghost use Rattle.std.specs.List.{list_any};
ghost use Rattle.std.specs.List.Sorted.{IsStrictlySortedBy};
ghost use Rattle.std.specs.BTreeMap.{is_at};
ghost use Rattle.std.specs.Set.{remove_key};
ghost use Rattle.slab.specs.Slab.{Slab, get};
ghost use Rattle.sync_core.specs.declared.wait.Wait.{Wait};
ghost use Rattle.sync_core.specs.Keys.{wait_cmp};
ghost use Rattle.sync_core.specs.Pending.{placed};
ghost use Rattle.sync_core.specs.Lines.{line_at, is_within, Loses};
ghost use Rattle.sync_core.specs.Changes.{others_by};
ghost use Rattle.sync_core.specs.Queues.{takes, leaves, is_other, has, GoesLast, Leads, LeadToAll, LeadToOthers, AreLines, entry_count};

use crate::change::Change;
use crate::line::Line;
use crate::records::Records;
use crate::wait::Wait;
use crate::which::{Which, Whose, takes};
use std::alloc::{AllocError, Global};
use std::marker::Model;

/// Lines are never made anew where fewer than three times this many waits were added.
const FEW: usize = 256;

/// The pending waits: their records, with a line by release and one by order number for each
/// target.
///
/// A wait that ends leaves its slot, while its entries may stay in the lines:
/// - what comes out of a line is looked up in the records, and is let go where it leads to no wait that must end
/// - the lines are made anew after three times as many waits were added as there are slots
/// - so they have at most eight entries for each slot, and 1,536 more
#[derive(Drop)]
pub struct Queues {
    all: Records,
    releases: Vec<Line>,
    orders: Vec<Line>,
    added: usize,
    alloc: Global,
}

impl Model for Queues {
    ghost use Rattle.std.specs.Prelude.{List};
    ghost use Rattle.sync_core.specs.declared.wait.Wait.{Wait};
    ghost use Rattle.sync_core.specs.Records.{waits_of};
    ghost use Rattle.sync_core.specs.Queues.{AreLines};

    ghost Value = { List Wait };

    ghost view = { λ q. waits_of q.all.slab };

    ghost invariant = { λ q. AreLines q.all.slab q.added q.releases.items q.orders.items };
}

/// Adds a slot to the line of a target.
fn push(
    lines: &mut Vec<Line>,
    alloc: Global,
    target: u32,
    key: u64,
    slot: usize,
) -> Result<(), AllocError>
    ensures olds { (t : ℕ) (e : ℕ × ℕ) → Contains (line_at lines.old.items t) e
        → Contains (line_at lines.new.items t) e }
    ensures new { OnOk result (Contains (line_at lines.new.items target) (key, slot)) }
    ensures count { entry_count lines.new.items ≤ entry_count lines.old.items + 1 }
{
    while lines.len() <= target as usize {
        lines.push(Line::new(alloc))?;
    }
    lines[target as usize].push(key, slot)
}

/// Has both lines of a wait lead to its slot.
fn lead(
    releases: &mut Vec<Line>,
    orders: &mut Vec<Line>,
    alloc: Global,
    wait: Wait,
    slot: usize,
) -> Result<(), AllocError>
    ensures olds { (i : ℕ) (w : Wait) → Leads releases.old.items orders.old.items i w
        → Leads releases.new.items orders.new.items i w }
    ensures new { OnOk result (Leads releases.new.items orders.new.items slot wait) }
    ensures count { entry_count releases.new.items + entry_count orders.new.items
        ≤ entry_count releases.old.items + entry_count orders.old.items + 2 }
{
    push(releases, alloc, wait.target, wait.release, slot)?;
    push(orders, alloc, wait.target, wait.order as u64, slot)
}

/// Takes a slot within the limit out of the line of a target.
fn pop(lines: &mut Vec<Line>, target: u32, limit: Option<u64>) -> Option<usize>
    ensures some { IfSome result
        (Loses limit (line_at lines.old.items target) (line_at lines.new.items target)) }
    ensures others { (t : ℕ) → t ≢ target → line_at lines.new.items t ≡ line_at lines.old.items t }
    ensures none { IfNone result
        (All (λ (e : ℕ × ℕ). is_within e.0 limit ≡ false) (line_at lines.old.items target)) }
    ensures same { IfNone result (lines.new.items ≡ lines.old.items) }
    ensures fewer { OnSome result (entry_count lines.new.items < entry_count lines.old.items) }
{
    if lines.len() <= target as usize {
        return None;
    }
    lines[target as usize].pop(limit)
}

/// Takes the next slot out of the line from which these waits are taken.
fn next_slot(releases: &mut Vec<Line>, orders: &mut Vec<Line>, which: Which) -> Option<usize>
    ensures leads { IfSome result
        (λ slot. (slab : Slab Wait) → LeadToAll releases.old.items orders.old.items slab
        → LeadToOthers slot which releases.new.items orders.new.items slab) }
    ensures fewer { OnSome result
        (entry_count releases.new.items + entry_count orders.new.items
        < entry_count releases.old.items + entry_count orders.old.items) }
    ensures none { IfNone result
        ((slab : Slab Wait) → LeadToAll releases.old.items orders.old.items slab
        → (i : ℕ) (w : Wait) → get slab i ≡ Some w → takes which w ≡ false) }
    ensures same_releases { IfNone result (releases.new.items ≡ releases.old.items) }
    ensures same_orders { IfNone result (orders.new.items ≡ orders.old.items) }
{
    match which {
        Which::Released(target, release) => pop(releases, target, Some(release)),
        Which::UpTo(target, order) => pop(orders, target, Some(order as u64)),
        Which::On(target) => pop(orders, target, None),
    }
}

/// Makes lines that lead to each of these waits, and have nothing else.
fn lines_to(all: &Records, alloc: Global) -> Result<(Vec<Line>, Vec<Line>), AllocError>
    ensures lead { IfOk result (λ lines. LeadToAll lines.0.items lines.1.items all.now.slab) }
    ensures count { IfOk result
        (λ lines. entry_count lines.0.items + entry_count lines.1.items
        ≤ 2 * all.now.slab.capacity) }
{
    let mut releases = Vec::new(alloc);
    let mut orders = Vec::new(alloc);
    for slot in 0..all.bound() {
        if let Some(wait) = all.get(slot) {
            lead(&mut releases, &mut orders, alloc, wait, slot)?;
        }
    }
    Ok((releases, orders))
}

/// Makes the lines anew where many waits were added since they were made.
///
/// The pass over the slots comes only after three times as many waits were added.
fn tidy(
    all: &Records,
    added: &mut usize,
    releases: &mut Vec<Line>,
    orders: &mut Vec<Line>,
    alloc: Global,
) -> Result<(), AllocError>
    requires { AreLines all.now.slab added.old releases.old.items orders.old.items }
    ensures lines { AreLines all.now.slab added.new releases.new.items orders.new.items }
    ensures room { OnOk result (added.new < 3 * (all.now.slab.capacity + FEW)) }
    ensures fits { OnOk result (added.new + 1 < 2 ^ 64) }
{
    let most = all.bound().saturating_add(FEW).saturating_mul(3);
    if most <= *added {
        let (by_release, by_order) = lines_to(all, alloc)?;
        *releases = by_release;
        *orders = by_order;
        *added = 0;
    }
    Ok(())
}

impl Queues {
    /// No waits.
    pub fn new(alloc: Global) -> Queues
        ensures { result ≡ [] }
    {
        Queues {
            all: Records::new(alloc),
            releases: Vec::new(alloc),
            orders: Vec::new(alloc),
            added: 0,
            alloc,
        }
    }

    /// How many waits there are.
    pub fn len(&self) -> usize
        ensures len { result ≡ length self.now }
        ensures rising { IsStrictlySortedBy wait_cmp self.now }
    {
        self.all.len()
    }

    /// Puts a wait after all waits of its number and of lower ones.
    pub fn insert(&mut self, wait: Wait) -> Result<(), AllocError>
        requires { GoesLast wait self.old }
        ensures ok { OnOk result (self.new ≡ placed wait self.old) }
        ensures len { OnOk result (length self.new ≡ length self.old + 1) }
        ensures err { OnErr result (self.new ≡ self.old) }
    {
        let Queues {
            all,
            releases,
            orders,
            added,
            alloc,
        } = self;
        tidy(all, added, releases, orders, *alloc)?;
        let slot = all.reserve(wait.order)?;
        *added += 1;
        lead(releases, orders, *alloc, wait, slot)?;
        all.insert(wait);
        Ok(())
    }

    /// Whether a wait of an order number is there.
    pub fn has_of(&self, order: u32) -> bool
        ensures { result ≡ list_any (λ (w : Wait). w.order == order) self.now }
    {
        self.all.has_of(order)
    }

    /// Takes a wait out, if there is one that must be taken.
    fn pop(&mut self, which: Which) -> Option<Wait>
        ensures taken { IfSome result (λ w. takes which w ≡ true) }
        ensures member { IfSome result (λ w. has self.old w ≡ true) }
        ensures rest { IfSome result (λ w. self.new ≡ remove_key (is_at (wait_cmp w)) self.old) }
        ensures none { IfNone result (All (λ w. takes which w ≡ false) self.old) }
        ensures same { IfNone result (self.new ≡ self.old) }
    {
        let Queues {
            all,
            releases,
            orders,
            ..
        } = self;
        while let Some(slot) = next_slot(releases, orders, which) {
            if let Some(wait) = all.get(slot) {
                if takes(which, wait) {
                    all.remove(slot, wait);
                    return Some(wait);
                }
            }
        }
        None
    }

    /// Takes these waits out, in rising order, into room that was taken before.
    #[inline(always)]
    pub fn take(&mut self, which: Which, taken: &mut Vec<Wait>)
        requires { length self.old ≤ vec_capacity taken.old }
        ensures pending { self.new ≡ filter (leaves which) self.old }
        ensures taken { taken.new.items ≡ filter (takes which) self.old }
        ensures room { vec_capacity taken.new ≡ vec_capacity taken.old }
        ensures len { length self.new + vec_len taken.new ≤ length self.old }
    {
        let _pending = self.len();
        taken.clear();
        while let Some(wait) = self.pop(which) {
            taken.push_reserved(wait);
        }
        taken.sort_unstable();
    }

    /// Takes all waits of an order number or of a stream away.
    pub fn drop_all(&mut self, whose: Whose)
        ensures others { self.new ≡ filter (is_other whose) self.old }
        ensures len { length self.new ≤ length self.old }
    {
        self.all.drop_all(whose);
    }

    /// Takes the waits of a stream away where it is lost or closed.
    pub fn drop_by(&mut self, s: u32, change: Change)
        ensures others { self.new ≡ others_by s change self.old }
        ensures len { length self.new ≤ length self.old }
    {
        match change {
            Change::Released(_) => {}
            Change::Finished => {}
            Change::Lost => self.drop_all(Whose::Stream(s)),
            Change::Closed => self.drop_all(Whose::Stream(s)),
        }
    }
}
