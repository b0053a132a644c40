//! The top call with what the program registers: the judge of `Test::Box`, and the test `nova.flavor`.
ghost use Rattle.std.specs.Prelude.{◌≡◌, ◌≢◌, ◌↔◌, IfOk};
ghost use Rattle.type_catalog.specs.Changes.{ChangeOf};
ghost use Rattle.type_catalog.specs.Kinds.{softs_of};
ghost use Rattle.type_catalog.specs.Names.{is_listed};
ghost use Rattle.type_catalog.specs.Shipped.{box_kind as the_box_kind};
ghost use Rattle.type_catalog.specs.Shipped.{flavor_test as the_flavor_test};
ghost use Rattle.driver.specs.Kept.{Shown};
ghost use Rattle.driver.specs.Scenes.{scene_of};
ghost use Rattle.converge_call.specs.Words.{IsForm};
ghost use Rattle.converge_call.specs.declared.setup.Mode.{Mode as mode_type};
ghost use Rattle.converge_call.specs.Ends.{outside, first_scene, HasDriven, OpensFor};
ghost use Rattle.converge_call.specs.Ends.{AsksFor, IsUnopened, IsUntouched};
ghost use Rattle.converge_call.specs.Shipped.{shipped_stock};

use crate::exit::Exit;
use crate::top::{End, Outcome, converge, unopened};
use heat_io::{Sink, Source};
use heat_plan::Properties;
use heat_value::{Seq, Text};
use provider::Provider;
use record_keeper::Keeper;
use std::alloc::{AllocError, Global};
use type_catalog::{Effect, box_kind, change_of, is_flavor, shipped_registry};

/// Does what the words ask for. Without memory for what is registered no book is opened.
pub fn converge_shipped<S: Source, W: Sink, K: Keeper, P: Provider>(
    alloc: Global,
    words: &[Text],
    source: &mut S,
    sink: &mut W,
    keeper: K,
    cloud: P,
) -> Outcome<K, P>
    // But for want of memory, Usage comes exactly where the words are none of the forms; nothing is then read or
    // written.
    ensures usage { result.status ≢ Exit.Memory
        → (result.status ≡ Exit.Usage) ↔ ((m : mode_type) → ¬ IsForm words.now m) }
    ensures source { result.status ≡ Exit.Usage → source.new ≡ source.old }
    ensures sink { result.status ≡ Exit.Usage → sink.new ≡ sink.old }

    // No book is opened for the words, for want of memory, or for what its opening came to; nothing is then read
    // or written.
    ensures unopened { (k : K) (p : P) → result.end ≡ End.Unopened k p
        → IsUnopened K.may_open K.shown K.faults P.cloud (AsksFor words.now)
        (record { keeper = keeper; cloud = cloud }) (record { keeper = k; cloud = p }) result.status }
    ensures untouched { (k : K) (p : P) → result.end ≡ End.Unopened k p
        → IsUntouched source.old source.new sink.old sink.new }

    // A book is opened with as many engines as the words say, over an image of the keeper's and what the cloud lists,
    // which agree.
    ensures opened { (b : Shown K P) → result.end ≡ End.Book b
        → OpensFor (K.may_open keeper) words.now (K.shown keeper) (K.shown b.origin.keeper)
        (K.faults keeper) (K.faults b.origin.keeper) (P.cloud cloud) (P.cloud b.origin.cloud) b.opening }

    // A book that is handed back was driven by the lines, with what the program registers in stock before the first.
    ensures driven { (b : Shown K P) → result.end ≡ End.Book b → HasDriven shipped_stock
        (K.shown b.origin.keeper) (K.shown b.keeper) (first_scene P.cloud b) (scene_of P.cloud b) b.halt
        (outside (S.left source.old) (S.faults source.old) (W.holds sink.old) (W.faults sink.old)
        (K.faults keeper))
        (outside (S.left source.new) (S.faults source.new) (W.holds sink.new) (W.faults sink.new)
        (K.faults b.keeper))
        result.status }
{
    let Ok(softs) = box_softs(alloc) else {
        return unopened(Exit::Memory, keeper, cloud);
    };
    let change = Box::new(
        alloc,
        move |old: &Properties, new: &Properties| -> Effect
            ensures { ∥ ChangeOf softs old.now new.now result ∥₁ }
        { change_of(softs.as_slice(), old, new) },
    );
    let ask = Box::new(
        alloc,
        |text: &Text| -> bool
            ensures { result ≡ is_listed the_flavor_test.allowed text.now }
        { is_flavor(text) },
    );
    let (Ok(change), Ok(ask)) = (change, ask) else {
        return unopened(Exit::Memory, keeper, cloud);
    };
    match shipped_registry(alloc, change, ask) {
        Ok(registry) => converge(alloc, words, source, sink, keeper, cloud, &registry),
        Err(_) => unopened(Exit::Memory, keeper, cloud),
    }
}

// The properties of `Test::Box` that change in place.
fn box_softs(alloc: Global) -> Result<Seq<Text>, AllocError>
    ensures { IfOk result (λ s. s ≡ softs_of the_box_kind.props) }
{
    box_kind(alloc)?.softs()
}
