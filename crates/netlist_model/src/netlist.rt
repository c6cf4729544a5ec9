// Netlists, and the statements that add to them.
ghost use Rattle.std.specs.Prelude.{◌≡◌, ◌≢◌, ◌<◌, ◌≤◌, ◌*◌, ◌++◌, ◌∷◌, [], None, Some, true, position, Ok, Err, IfOk, IfErr, IfSome, IsSome, List, OnErr, OnOk, length, map, option_map, slice_get};
ghost use Rattle.std.specs.List.{flat_map};
ghost use Rattle.cell_arcs.specs.Steps.{or_fault};
ghost use Rattle.cell_arcs.specs.declared.cells.Cell.{Cell};
ghost use Rattle.std.specs.Str.{bytes_eq};
ghost use Rattle.cyc_text.specs.Name as names;
ghost use Rattle.netlist_model.specs.Circuit.{driver_of, event_at, event_of, fork_of, last_of, nothing, place_of};
ghost use Rattle.netlist_model.specs.EventNames as event_names;
ghost use Rattle.netlist_model.specs.Expansion.{offset_of, rules_of};
ghost use Rattle.netlist_model.specs.Sound.{Fits, FitsCell, IsInstance, IsNetlist};
ghost use Rattle.netlist_model.specs.Statements as spec;
ghost use Rattle.netlist_model.specs.Whole.{IsChecked, idle_fault, undriven_fault, whole_of};
ghost use Rattle.netlist_model.specs.declared.faults.StatementFault.TheVariants.{UnknownEvent};
ghost use Rattle.netlist_model.specs.declared.parts.NetRef.TheVariants.{Net};

mod owned;
mod removals;

use crate::counting::insts_count;
use crate::faults::{StatementFault, WholeFault};
use crate::forks::Forks;
use crate::instances::Instances;
use crate::names::Names;
use crate::parts::{Delay, Delays, Fork, Instance, NetRef, NetRefs, Tick};
use crate::ticks::Ticks;
use crate::whole::{first_idle, first_undriven};
use crate::wiring::{arc_of, no_delays, pins_of, ref_of};
use crate::words::{EventWord, PinWord};
use cell_arcs::{Cell, Library};
use cyc_text::{Limit, Text, is_name};
use std::alloc::{AllocError, Global};
use std::marker::Model;

/// The most nets with events.
const MOST_NETS: usize = 16384;
/// The most constants.
const MOST_CONSTS: usize = 1024;
/// The most forks.
const MOST_FORKS: usize = 256;
/// The greatest delay, in picoseconds.
const MOST_DELAY: u64 = 1_000_000;
/// The greatest margin of a fork, in picoseconds.
const MOST_MARGIN: u64 = 1_000_000;
/// The greatest offset of a fork, and the greatest count of a tick.
const MOST_OFFSET: u64 = 15;
/// The most rules of a whole netlist.
const MOST_RULES: u64 = 131_072;

/// A netlist: nets with events, constants, instances of cells, ticks, forks and a root.
#[derive(Drop)]
pub struct Netlist {
    alloc: Global,
    nets: Names,
    consts: Names,
    insts: Instances,
    ticks: Ticks,
    forks: Forks,
    root: Option<u32>,
}

impl Model for Netlist {
    ghost use Rattle.netlist_model.specs.Circuit.{Circuit};

    ghost Value = { Circuit };

    ghost use Rattle.netlist_model.specs.Sound.{IsNetlist};

    ghost view = { λ n. record { nets = n.nets; consts = n.consts; insts = n.insts; ticks = n.ticks; forks = n.forks; root = n.root } };

    ghost invariant = { λ n. IsNetlist (record { nets = n.nets; consts = n.consts; insts = n.insts; ticks = n.ticks; forks = n.forks; root = n.root }) };
}

impl Netlist {
    /// The netlist with nothing in it.
    pub fn empty(alloc: Global) -> Result<Netlist, AllocError>
        ensures { IfOk result (λ n. n ≡ nothing) }
    {
        Ok(Netlist {
            alloc,
            nets: Names::empty(alloc),
            consts: Names::empty(alloc),
            insts: Instances::empty(alloc),
            ticks: Ticks::empty(alloc),
            forks: Forks::empty(alloc),
            root: None,
        })
    }

    /// How many nets have events.
    pub fn net_count(&self) -> usize
        ensures count { result ≡ length self.now.nets }
        ensures sound { IsNetlist self.now }
    {
        self.nets.count()
    }

    /// Makes known what holds of every netlist. It does nothing.
    pub fn sound(&self)
        ensures { IsNetlist self.now }
    {
        let _ = &self.root;
    }

    pub fn const_count(&self) -> usize
        ensures { result ≡ length self.now.consts }
    {
        self.consts.count()
    }

    pub fn inst_count(&self) -> usize
        ensures { result ≡ length self.now.insts }
    {
        self.insts.list().len()
    }

    pub fn tick_count(&self) -> usize
        ensures { result ≡ length self.now.ticks }
    {
        self.ticks.count()
    }

    pub fn fork_count(&self) -> usize
        ensures { result ≡ length self.now.forks }
    {
        self.forks.count()
    }

    /// The name of the net at a place.
    pub fn net_name(&self, at: usize) -> &[u8]
        requires { at < length self.now.nets }
        ensures { slice_get self.now.nets at ≡ Some result.now }
    {
        self.nets.name(at)
    }

    /// The name of the constant at a place.
    pub fn const_name(&self, at: usize) -> &[u8]
        requires { at < length self.now.consts }
        ensures { slice_get self.now.consts at ≡ Some result.now }
    {
        self.consts.name(at)
    }

    /// The instance at a place.
    pub fn inst(&self, at: usize) -> &Instance
        requires { at < length self.now.insts }
        ensures { slice_get self.now.insts at ≡ Some result.now }
    {
        &self.insts.list()[at]
    }

    /// The tick at a place. It is found by a walk over the blocks of 1,024; `tick_blocks` gives them all.
    pub fn tick(&self, at: usize) -> Tick
        requires { at < length self.now.ticks }
        ensures { slice_get self.now.ticks at ≡ Some result }
    {
        self.ticks.tick(at)
    }

    /// The offset from an event to another: the count (1 to 15) of their tick, or 0 where they have none.
    /// It is one look-up.
    pub fn offset(&self, source: u32, target: u32) -> u32
        ensures { result ≡ offset_of self.now.ticks source target }
    {
        self.ticks.offset(source, target)
    }

    /// The ticks in order, in blocks one after the other.
    pub fn tick_blocks(&self) -> &[Vec<Tick>]
        ensures { flat_map (λ b. b) (map (λ b. b.items) result.now) ≡ self.now.ticks }
    {
        self.ticks.blocks()
    }

    /// The fork at a place.
    pub fn fork(&self, at: usize) -> &Fork
        requires { at < length self.now.forks }
        ensures { slice_get self.now.forks at ≡ Some result.now }
    {
        &self.forks.list()[at]
    }

    /// The root event.
    pub fn root(&self) -> Option<u32>
        ensures { result ≡ self.now.root }
    {
        self.root
    }

    /// The event of a net that rises or falls, where a net with events has the name.
    pub fn event(&self, net: &[u8], rising: bool) -> Option<u32>
        ensures event { result ≡ option_map (event_at rising) (place_of net.now self.now.nets) }
        ensures within { IfSome result (λ e. e < 2 * length self.now.nets) }
    {
        match self.nets.find(net) {
            Some(at) => Some(if rising { 2 * at } else { 2 * at + 1 }),
            None => None,
        }
    }

    /// The name of an event: its net's, and `+` where the event is a rise or `-` where it is a fall.
    #[tactic(auto, unfolding(crate::specs::EventNames::event_name), using(crate::proofs::Places::name_stands))]
    pub fn event_name(&self, event: u32) -> Result<Text, AllocError>
        requires { event < 2 * length self.now.nets }
        ensures { IfOk result (λ name. name ≡ event_names.event_name self.now.nets event) }
    {
        let mut name = Vec::from_slice(self.alloc, self.net_name((event / 2) as usize))?;
        name.push(if event % 2 == 0 { b'+' } else { b'-' })?;
        Text::of(self.alloc, &name)
    }

    /// The place of the fork of a name.
    pub fn fork_at(&self, name: &[u8]) -> Option<usize>
        ensures { result ≡ fork_of self.now.forks name.now }
    {
        self.forks.find(name)
    }

    /// How many rules the netlist stands for, linear in the instances and their arcs.
    pub fn rule_count(&self, library: &Library) -> u64
        requires { Fits library.now self.now.insts }
        ensures { result ≡ length (rules_of library.now self.now) }
    {
        insts_count(library, self.insts.list())
    }

    /// The first net that no instance drives.
    fn check_nets(&self) -> Result<(), WholeFault>
        ensures { IsChecked result (undriven_fault self.now) }
    {
        match first_undriven(&self.insts, &self.nets) {
            Some(at) => Err(WholeFault::Undriven(at + 1)),
            None => Ok(()),
        }
    }

    /// The first tick without a rule between its events. Each tick is sought among the arcs of one instance.
    fn check_ticks(&self, library: &Library) -> Result<(), WholeFault>
        requires { Fits library.now self.now.insts }
        ensures { IsChecked result (idle_fault library.now self.now) }
    {
        match first_idle(library, &self.insts, self.ticks.blocks()) {
            Some(at) => Err(WholeFault::IdleTick(at + 1)),
            None => Ok(()),
        }
    }

    /// Whether the netlist is whole, in time linear in nets, ticks and the arcs of instances.
    ///
    /// # Errors
    ///
    /// The first of: a net without driver, no root, a tick with no rule between its events, more than
    /// 131,072 rules.
    #[tactic(auto, unfolding(crate::specs::Whole::whole_of))]
    pub fn check_whole(&self, library: &Library) -> Result<(), WholeFault>
        requires { Fits library.now self.now.insts }
        ensures ok { IfOk result (λ _. whole_of library.now self.now ≡ None) }
        ensures refused { IfErr result (λ e. whole_of library.now self.now ≡ Some e) }
        ensures rooted { IfOk result (λ _. IsSome self.now.root) }
        ensures few { IfOk result (λ _. length (rules_of library.now self.now) ≤ 131072) }
    {
        self.check_nets()?;
        if self.root.is_none() {
            return Err(WholeFault::NoRoot);
        }
        self.check_ticks(library)?;
        let count = self.rule_count(library);
        if count > MOST_RULES {
            return Err(WholeFault::TooManyRules(count));
        }
        Ok(())
    }

    /// Whether a net or a constant has the name.
    fn is_taken(&self, name: &[u8]) -> bool
        ensures { result ≡ spec.is_ref self.now name.now }
    {
        ref_of(&self.nets, &self.consts, name).is_some()
    }

    /// The event of a name, or the fault where there is none.
    fn event_named(&self, event: &EventWord<'_>) -> Result<u32, StatementFault>
        ensures event { result ≡ or_fault UnknownEvent (event_of self.now.nets event.now) }
        ensures within { IfOk result (λ e. e < 2 * length self.now.nets) }
    {
        match self.event(event.net(), event.rising()) {
            Some(found) => Ok(found),
            None => Err(StatementFault::UnknownEvent),
        }
    }

    /// Adds a net with events, which stands last.
    #[tactic(auto, unfolding(crate::specs::Statements::add_net))]
    pub fn add_net(&mut self, name: &[u8]) -> Result<(), StatementFault>
        ensures ok { OnOk result (spec.add_net self.old name.now ≡ Ok self.new) }
        ensures refused { IfErr result (λ e. e ≢ StatementFault.Memory → spec.add_net self.old name.now ≡ Err e) }
        ensures unchanged { OnErr result (self.new ≡ self.old) }
        ensures fits { (library : List Cell) → Fits library self.old.insts → Fits library self.new.insts }
    {
        if !is_name(name) {
            return Err(StatementFault::BadName);
        }
        if self.is_taken(name) {
            return Err(StatementFault::NameTaken);
        }
        if self.nets.count() >= MOST_NETS {
            return Err(StatementFault::TooMany(Limit::Nets));
        }
        self.nets.push(name)?;
        Ok(())
    }

    /// Adds a constant, a net that never changes, which stands last.
    #[tactic(auto, unfolding(crate::specs::Statements::add_const))]
    pub fn add_const(&mut self, name: &[u8]) -> Result<(), StatementFault>
        ensures ok { OnOk result (spec.add_const self.old name.now ≡ Ok self.new) }
        ensures refused { IfErr result (λ e. e ≢ StatementFault.Memory → spec.add_const self.old name.now ≡ Err e) }
        ensures unchanged { OnErr result (self.new ≡ self.old) }
        ensures fits { (library : List Cell) → Fits library self.old.insts → Fits library self.new.insts }
    {
        if !is_name(name) {
            return Err(StatementFault::BadName);
        }
        if self.is_taken(name) {
            return Err(StatementFault::NameTaken);
        }
        if self.consts.count() >= MOST_CONSTS {
            return Err(StatementFault::TooMany(Limit::Consts));
        }
        self.consts.push(name)?;
        Ok(())
    }

    /// Makes an event the root. Another root is replaced where `again` says so, and refused where not.
    #[tactic(auto, unfolding(crate::specs::Statements::set_root))]
    pub fn set_root_by_words(
        &mut self,
        event: &EventWord<'_>,
        again: bool,
    ) -> Result<(), StatementFault>
        ensures ok { OnOk result (spec.set_root self.old event.now again ≡ Ok self.new) }
        ensures refused { IfErr result (λ e. e ≢ StatementFault.Memory → spec.set_root self.old event.now again ≡ Err e) }
        ensures unchanged { OnErr result (self.new ≡ self.old) }
        ensures fits { (library : List Cell) → Fits library self.old.insts → Fits library self.new.insts }
    {
        let root = self.event_named(event)?;
        if !again && self.root.is_some() {
            return Err(StatementFault::RootTaken);
        }
        self.root = Some(root);
        Ok(())
    }

    /// Gives a pair of events a tick, or takes theirs away where the count is 0. The count is at most 15.
    #[tactic(auto, unfolding(crate::specs::Statements::set_tick, crate::specs::Statements::start_tick, crate::specs::Statements::end_tick))]
    pub fn set_tick_by_words(
        &mut self,
        source: &EventWord<'_>,
        target: &EventWord<'_>,
        count: u64,
    ) -> Result<(), StatementFault>
        ensures ok { OnOk result (spec.set_tick self.old source.now target.now count ≡ Ok self.new) }
        ensures refused { IfErr result (λ e. e ≢ StatementFault.Memory → spec.set_tick self.old source.now target.now count ≡ Err e) }
        ensures unchanged { OnErr result (self.new ≡ self.old) }
        ensures fits { (library : List Cell) → Fits library self.old.insts → Fits library self.new.insts }
    {
        let source = self.event_named(source)?;
        let target = self.event_named(target)?;
        if count > MOST_OFFSET {
            return Err(StatementFault::OutOfRange(count));
        }
        let taken = self.ticks.has(source, target);
        if count == 0 {
            if !taken {
                return Err(StatementFault::OutOfRange(count));
            }
            self.ticks.remove(source, target);
            return Ok(());
        }
        if taken {
            return Err(StatementFault::TickTaken);
        }
        self.ticks.push(Tick {
            source,
            target,
            count: count as u32,
        })?;
        Ok(())
    }

    /// Adds a fork, which stands last. The margin is in picoseconds, at most 1,000,000, and the offset at most 15.
    #[tactic(auto, unfolding(crate::specs::Statements::add_fork, crate::specs::Statements::add_fork_of))]
    pub fn add_fork_by_words(
        &mut self,
        name: &[u8],
        root: &EventWord<'_>,
        fast: &EventWord<'_>,
        slow: &EventWord<'_>,
        margin: u64,
        offset: u64,
    ) -> Result<(), StatementFault>
        ensures ok { OnOk result (spec.add_fork self.old name.now root.now fast.now slow.now margin offset ≡ Ok self.new) }
        ensures refused { IfErr result (λ e. e ≢ StatementFault.Memory → spec.add_fork self.old name.now root.now fast.now slow.now margin offset ≡ Err e) }
        ensures unchanged { OnErr result (self.new ≡ self.old) }
        ensures fits { (library : List Cell) → Fits library self.old.insts → Fits library self.new.insts }
    {
        if !is_name(name) {
            return Err(StatementFault::BadName);
        }
        if self.forks.find(name).is_some() {
            return Err(StatementFault::ForkTaken);
        }
        let root = self.event_named(root)?;
        let fast = self.event_named(fast)?;
        let slow = self.event_named(slow)?;
        if margin > MOST_MARGIN {
            return Err(StatementFault::OutOfRange(margin));
        }
        if offset > MOST_OFFSET {
            return Err(StatementFault::OutOfRange(offset));
        }
        if self.forks.count() >= MOST_FORKS {
            return Err(StatementFault::TooMany(Limit::Forks));
        }
        if self.forks.is_past_roots(root) {
            return Err(StatementFault::TooMany(Limit::Roots));
        }
        let fork = Fork {
            name: Text::of(self.alloc, name)?,
            root,
            fast,
            slow,
            margin: margin as u32,
            offset: offset as u32,
        };
        self.forks.push(fork)?;
        Ok(())
    }

    /// Adds an instance of a cell of the library, which stands last. Each pin of the cell is given once.
    #[tactic(auto, unfolding(crate::specs::Statements::add_inst))]
    pub fn add_inst_by_words(
        &mut self,
        library: &Library,
        name: &[u8],
        cell: &[u8],
        pins: &[PinWord<'_>],
    ) -> Result<(), StatementFault>
        requires { Fits library.now self.old.insts }
        ensures ok { OnOk result (spec.add_inst library.now self.old name.now cell.now pins.now ≡ Ok self.new) }
        ensures refused { IfErr result (λ e. e ≢ StatementFault.Memory → spec.add_inst library.now self.old name.now cell.now pins.now ≡ Err e) }
        ensures unchanged { OnErr result (self.new ≡ self.old) }
        ensures fits { Fits library.now self.new.insts }
    {
        if !is_name(name) {
            return Err(StatementFault::BadName);
        }
        if self.insts.find(name).is_some() {
            return Err(StatementFault::NameTaken);
        }
        let Some(at) = find_cell(library, cell) else {
            return Err(StatementFault::UnknownCell);
        };
        let (instance, net) = self.instance_of(name, at, library.cell(at), pins)?;
        self.insts.push(instance, net)?;
        Ok(())
    }

    /// The instance that the pin words make of a cell, and the net of its output.
    #[tactic(auto, unfolding(crate::specs::Statements::add_inst_of))]
    fn instance_of(
        &self,
        name: &[u8],
        at: usize,
        cell: &Cell,
        pins: &[PinWord<'_>],
    ) -> Result<(Instance, u32), StatementFault>
        requires { names.is_name name.now ≡ true }
        ensures ok { IfOk result (λ p. spec.add_inst_of self.now name.now at cell.now pins.now ≡ Ok (record self.now { insts = self.now.insts ++ p.0 ∷ [] })) }
        ensures refused { IfErr result (λ e. e ≢ StatementFault.Memory → spec.add_inst_of self.now name.now at cell.now pins.now ≡ Err e) }
        ensures named { IfOk result (λ p. p.0.name ≡ name.now) }
        ensures place { IfOk result (λ p. p.0.cell ≡ at) }
        ensures sound { IfOk result (λ p. IsInstance (length self.now.nets) (length self.now.consts) p.0) }
        ensures output { IfOk result (λ p. last_of p.0.pins ≡ Some (Net p.1)) }
        ensures free { IfOk result (λ p. driver_of self.now.insts p.1 ≡ None) }
        ensures fits { IfOk result (λ p. FitsCell cell.now p.0) }
    {
        let (mut refs, output) = pins_of(self.alloc, &self.nets, &self.consts, cell, pins)?;
        let net = self.free_net(output)?;
        refs.push(output)?;
        let instance = Instance {
            name: Text::of(self.alloc, name)?,
            cell: at,
            pins: NetRefs::of(refs),
            delays: Delays::of(no_delays(self.alloc, cell.arcs.list())?),
        };
        Ok((instance, net))
    }

    /// The net that an output may be on, or why it may not.
    fn free_net(&self, output: NetRef) -> Result<u32, StatementFault>
        ensures ok { IfOk result (λ n. (output ≡ Net n) × (driver_of self.now.insts n ≡ None)) }
        ensures refused { IfErr result (λ e. spec.output_fault self.now.insts output ≡ Some e) }
    {
        let NetRef::Net(net) = output else {
            return Err(StatementFault::ConstDriven);
        };
        let count = self.insts.list().len();
        match self.insts.driver(net) {
            Some(driver) => {
                prove!(driver < count);
                Err(StatementFault::DriverTaken(driver + 1))
            }
            None => Ok(net),
        }
    }

    /// Gives an instance delays of its own for the arc from a pin, in picoseconds, each at most 1,000,000.
    #[tactic(auto, unfolding(crate::specs::Statements::set_delay))]
    pub fn set_delay(
        &mut self,
        library: &Library,
        inst: &[u8],
        pin: &[u8],
        rise: u64,
        fall: u64,
    ) -> Result<(), StatementFault>
        requires { Fits library.now self.old.insts }
        ensures ok { OnOk result (spec.set_delay library.now self.old inst.now pin.now rise fall ≡ Ok self.new) }
        ensures refused { IfErr result (λ e. e ≢ StatementFault.Memory → spec.set_delay library.now self.old inst.now pin.now rise fall ≡ Err e) }
        ensures unchanged { OnErr result (self.new ≡ self.old) }
        ensures fits { Fits library.now self.new.insts }
    {
        let Some(at) = self.insts.find(inst) else {
            return Err(StatementFault::UnknownInst);
        };
        let cell = inst_cell(library, self.insts.list(), at);
        let arc = arc_of(cell, pin)?;
        if rise > MOST_DELAY {
            return Err(StatementFault::OutOfRange(rise));
        }
        if fall > MOST_DELAY {
            return Err(StatementFault::OutOfRange(fall));
        }
        let delay = Delay {
            rise: rise as u32,
            fall: fall as u32,
        };
        self.insts.set_delay(at, arc, delay);
        Ok(())
    }
}

/// The cell of the instance at a place.
fn inst_cell<'a>(library: &'a Library, insts: &[Instance], at: usize) -> &'a Cell
    requires within { at < length insts.now }
    requires fits { Fits library.now insts.now }
    ensures cell { spec.cell_at library.now insts.now at ≡ Some result.now }
{
    library.cell(insts[at].cell)
}

/// The place of the cell of a name.
#[tactic(auto, using(crate::proofs::Places::position_within))]
fn find_cell(library: &Library, name: &[u8]) -> Option<usize>
    ensures place { result ≡ position (λ k. bytes_eq name.now k.name) library.now }
    ensures within { IfSome result (λ at. at < length library.now) }
{
    library.find(name)
}
