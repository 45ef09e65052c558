//! Networks: a hashed store of gates of one kind, and views in slots.

ghost use Rattle.std.specs.Prelude.{◌≡◌, ◌≤◌, ◌<◌, ◌-◌, [], ◌↔◌, IfOk, OnOk, OnErr, Err, length, min, false};
ghost use Rattle.lnet_gates.specs.Natives.{FitsWord};
ghost use Rattle.lnet_gates.specs.Plans.{Takes};
ghost use Rattle.lnet_model.specs.Along.{nodes_read};
ghost use Rattle.lnet_model.specs.Changes.{AreLive};
ghost use Rattle.lnet_model.specs.Dags.{NUMBERS};
ghost use Rattle.lnet_hashed.specs.Laid.{made};
ghost use Rattle.lnet_hashed.specs.Watches.{AreFitBy, AreToldBy, IsBare};
ghost use Rattle.lnet_model.specs.Networks.{IsLive, live_count};
ghost use Rattle.lnet_store.specs.StoreValues.{first_network};
ghost use Rattle.lnet_hashed.specs.Strashed.{of_kind};
ghost use Rattle.lnet_hashed.specs.Swept.{IsSwept};
ghost use Rattle.lnet_network.specs.Uses.{IsEntered, IsMade};

use lnet_gates::{Gates, Node, Op, Signal};
use lnet_hashed::{Hashed, Watch, add_input, make, reserve, sweep};
use lnet_store::{AddError, NUMBER_LIMIT, View};
use std::alloc::{AllocError, Global};
use std::marker::{Model, PhantomData};

/// A hashed store whose gates are of one kind and in normal form, no two with one key.
pub struct Core<G: Gates> {
    pub(crate) hashed: Hashed,
    kind: PhantomData<G>,
}

impl<G: Gates> Drop for Core<G> {
    /// Lets its fields go. Where a value ends this is called; a derived one would be written out there.
    fn drop(self) {
        let Self { hashed: _, kind: _ } = self;
    }
}

impl<G: Gates> Model for Core<G> {
    ghost use Rattle.lnet_hashed.specs.Strashed.{IsStrashed, of_kind};
    ghost use Rattle.lnet_hashed.specs.Rooms.{HasRoom};
    ghost use Rattle.lnet_network.specs.Cores.{CoreValue, core_code};

    ghost Value = { CoreValue };

    ghost coded = { core_code };

    ghost view = { λ c. record { network = of_kind G.KIND c.hashed.store.network; room = c.hashed.room } };

    ghost invariant = { λ c. IsStrashed G.KIND c.hashed.store.network × HasRoom c.hashed };
}

impl<G: Gates> Core<G> {
    /// Node 0 alone.
    pub fn new(alloc: Global) -> Result<Core<G>, AllocError>
        ensures network { IfOk result (λ c. c.network ≡ of_kind G.KIND first_network) }
    {
        let hashed = Hashed::new(alloc)?;
        Ok(Core {
            hashed,
            kind: PhantomData,
        })
    }
}

/// A table of a look-up table's gate is a word: said for the proofs of the calls that make gates.
fn word_fits(op: &Op)
    ensures { FitsWord op.now }
{
    match op {
        Op::Lut(table) => {
            let _word = *table;
        }
        _ => {}
    }
}

/// A network of one kind, and views in slots.
pub struct Network<G: Gates> {
    /// The gates, the inputs and the outputs.
    pub core: Core<G>,
    /// The views, each in the slot of its id.
    pub watch: Watch,
}

impl<G: Gates> Drop for Network<G> {
    /// Lets its fields go. Where a value ends this is called; a derived one would be written out there.
    fn drop(self) {
        let Self { core: _, watch: _ } = self;
    }
}

impl<G: Gates> Network<G> {
    /// The network of node 0 alone, without views.
    #[tactic(auto, using(lnet_hashed::proofs::KeptViews::bare_fit))]
    pub fn new(alloc: Global) -> Result<Network<G>, AllocError>
        ensures network { IfOk result (λ n. n.core.network ≡ of_kind G.KIND first_network) }
        ensures inputs { IfOk result (λ n. n.core.network.inputs ≡ []) }
        ensures outputs { IfOk result (λ n. n.core.network.outputs ≡ []) }
        ensures views { IfOk result (λ n. IsBare n.watch) }
        ensures in_step { IfOk result (λ n. AreFitBy ⟦<dyn View as View>⟧ n.core.network n.core.room n.watch) }
    {
        let core = Core::new(alloc)?;
        Ok(Network {
            core,
            watch: Watch {
                views: Vec::new(alloc),
                visits: Vec::new(alloc),
            },
        })
    }

    /// For how many new nodes there is memory. Constant time.
    pub fn spare(&self) -> u32
        ensures { result ≡ self.now.core.room - live_count self.now.core.network }
    {
        self.core.hashed.room - self.core.hashed.store.live_count()
    }

    /// Gets memory for so many new nodes in the network and in each view, or for as many as there are free numbers. Refused for
    /// want of it, the network is as it was. Linear in the numbers, and constant time where there is enough.
    pub fn reserve(&mut self, numbers: u32) -> Result<(), AllocError>
        requires in_step { AreFitBy ⟦<dyn View as View>⟧ self.old.core.network self.old.core.room self.old.watch }
        ensures network { self.new.core.network ≡ self.old.core.network }
        ensures spare { OnOk result (min numbers (NUMBERS - live_count self.old.core.network) ≤ self.new.core.room - live_count self.new.core.network) }
        ensures grows { self.old.core.room ≤ self.new.core.room }
        ensures visits { self.new.watch.visits.items ≡ self.old.watch.visits.items }
        ensures in_step { AreToldBy ⟦<dyn View as View>⟧ self.new.core.network self.new.core.room self.old.watch self.new.watch }
    {
        let live = self.core.hashed.store.live_count();
        let wanted = live + numbers.min(NUMBER_LIMIT - live);
        if wanted <= self.core.hashed.room {
            return Ok(());
        }
        reserve(&mut self.core.hashed, &mut self.watch, wanted)
    }

    /// The signal of an operation on operands, as many as it takes: a gate that is there, or a new one, or by the plan of the
    /// kind. `Full` where the gates that are missing are more than the free numbers; `NoMemory` never where `spare` covers them.
    /// Refused, the network is as it was. Constant time on average for each gate of the plan, beside what the views take.
    pub fn gate(&mut self, op: Op, operands: &[Signal]) -> Result<Signal, AddError>
        requires arity { Takes op (length operands.now) }
        requires live { AreLive self.old.core.network (nodes_read operands.now) }
        requires in_step { AreFitBy ⟦<dyn View as View>⟧ self.old.core.network self.old.core.room self.old.watch }
        ensures made { IfOk result (λ s. IsMade G.KIND self.old.core.network op operands.now self.new.core.network s) }
        ensures refused { OnErr result (self.new.core.network ≡ self.old.core.network) }
        ensures grows { self.old.core.room ≤ self.new.core.room }
        ensures full { result ≡ Err AddError.Full → NUMBERS < live_count (made G.KIND self.old.core.network op operands.now).network }
        ensures memory { result ≡ Err AddError.NoMemory → self.old.core.room < min NUMBERS (live_count (made G.KIND self.old.core.network op operands.now).network) }
        ensures in_step { AreToldBy ⟦<dyn View as View>⟧ self.new.core.network self.new.core.room self.old.watch self.new.watch }
    {
        word_fits(&op);
        let _before = self.live_count();
        let answer = self.make(op, operands);
        let _after = self.live_count();
        answer
    }

    /// As `gate`, in the words of the definition alone.
    fn make(&mut self, op: Op, operands: &[Signal]) -> Result<Signal, AddError>
        requires arity { Takes op (length operands.now) }
        requires live { AreLive self.old.core.network (nodes_read operands.now) }
        requires in_step { AreFitBy ⟦<dyn View as View>⟧ self.old.core.network self.old.core.room self.old.watch }
        ensures made { IfOk result (λ s. made G.KIND self.old.core.network op operands.now ≡ record { network = self.new.core.network; signal = s }) }
        ensures refused { OnErr result (self.new.core.network ≡ self.old.core.network) }
        ensures grows { self.old.core.room ≤ self.new.core.room }
        ensures full { result ≡ Err AddError.Full → NUMBERS < live_count (made G.KIND self.old.core.network op operands.now).network }
        ensures memory { result ≡ Err AddError.NoMemory → self.old.core.room < min NUMBERS (live_count (made G.KIND self.old.core.network op operands.now).network) }
        ensures in_step { AreToldBy ⟦<dyn View as View>⟧ self.new.core.network self.new.core.room self.old.watch self.new.watch }
    {
        word_fits(&op);
        make::<G>(&mut self.core.hashed, &mut self.watch, op, operands)
    }

    /// A new input, under the least number that isn't live. `Full` exactly where every number is live; `NoMemory` never where
    /// `spare` is above 0. Refused, the network is as it was. Constant time, amortized.
    pub fn input(&mut self) -> Result<Signal, AddError>
        requires in_step { AreFitBy ⟦<dyn View as View>⟧ self.old.core.network self.old.core.room self.old.watch }
        ensures entered { IfOk result (λ s. IsEntered self.old.core.network self.new.core.network s) }
        ensures refused { OnErr result (self.new.core.network ≡ self.old.core.network) }
        ensures grows { self.old.core.room ≤ self.new.core.room }
        ensures full { (result ≡ Err AddError.Full) ↔ (live_count self.old.core.network ≡ NUMBERS) }
        ensures memory { result ≡ Err AddError.NoMemory → (self.old.core.room ≤ live_count self.old.core.network) × (live_count self.old.core.network < NUMBERS) }
        ensures in_step { AreToldBy ⟦<dyn View as View>⟧ self.new.core.network self.new.core.room self.old.watch self.new.watch }
    {
        match add_input(&mut self.core.hashed, &mut self.watch) {
            Ok(node) => Ok(Signal {
                node,
                complement: false,
            }),
            Err(error) => Err(error),
        }
    }

    /// Removes each gate that no output reaches. It takes no memory, and can't be refused. Linear in the numbers where gates
    /// stand above their fanins.
    pub fn sweep(&mut self)
        requires in_step { AreFitBy ⟦<dyn View as View>⟧ self.old.core.network self.old.core.room self.old.watch }
        ensures network { IsSwept self.old.core.network self.new.core.network }
        ensures room { self.new.core.room ≡ self.old.core.room }
        ensures in_step { AreToldBy ⟦<dyn View as View>⟧ self.new.core.network self.new.core.room self.old.watch self.new.watch }
    {
        sweep(&mut self.core.hashed, &mut self.watch);
    }
}
