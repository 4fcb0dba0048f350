//! Opening the places of a configuration, and giving their parts back.
ghost use Rattle.std.specs.Prelude.{◌≡◌, ◌≤◌, ℕ, List, Option, map, refl, true, false, [], ◌∷◌, length, IfOk, IfErr, OnErr, OnOk, vec_capacity};
ghost use Rattle.std.specs.List.{IsDistinct};
ghost use Rattle.std.specs.Str.{bytes_eq};
ghost use Rattle.agent_base.specs.Carried.{Carried};
ghost use Rattle.agent_base.specs.Places.{AreHome, Opens, Place, Refuses, SameBut, TakesIn};
ghost use Rattle.agent_base.specs.Views.{WorldView};
ghost use Rattle.std.proofs.Common.{◌∙◌};
ghost use Rattle.agent_run.specs.PlaceLists.{AreGiven, AreHomeBut, AreOpened, PartsAreOut, AreRefused, IsLeftUnopened, IsUnopenedBy};
ghost use Rattle.agent_run.specs.PlaceLists.{OnlyIns, OnlyOuts, OpensAll, StopsAt};
ghost use Rattle.agent_run.specs.PlaceLists.{in_places, out_places, places_in, places_out, read_parts};
ghost use Rattle.agent_run.specs.PlaceLists.{written_parts};

use agent_base::{OpenFault, World};
use agent_config::{Config, InputConf, OutputConf};
use agent_workers::Opened;
use std::alloc::Global;

/// Why the places of a configuration weren't opened.
#[derive(Clone, Copy, Debug, PartialEq, Eq)]
pub(crate) enum Unopened<'a> {
    /// This place wasn't opened.
    Failed(&'a str),
    /// No memory was left.
    OutOfMemory,
}

/// Why a place wasn't opened.
fn unopened_at(place: &str, fault: OpenFault) -> Unopened<'_>
    ensures { IsUnopenedBy fault place.now result }
{
    match fault {
        OpenFault::Failed => Unopened::Failed(place),
        OpenFault::OutOfMemory => Unopened::OutOfMemory,
    }
}

/// One side of a world: the places that are read, or those that are written.
trait Side<W: World> {
    /// What names a place of the side in a configuration.
    type Conf;

    /// The part of a place.
    type Part: Drop;

    /// That place, as contracts see it.
    ghost place_of: { Self.Conf → List ℕ };

    /// What a part tells.
    ghost told: { Self.Part → Carried };

    /// What a world tells of the side's places.
    ghost places: { WorldView → List ℕ → Place };

    /// Places of the side changed at most.
    ghost only: { WorldView → WorldView → Type 0 };

    /// The place that it names.
    fn place(conf: &Self::Conf) -> &str
        ensures { result.now ≡ place_of conf.now };

    /// Moves the part of a place out; nothing else changes.
    fn open_part(world: &mut W, place: &str) -> Result<Self::Part, OpenFault>
        requires { (places (W.view world.old) place.now).is_out ≡ false }
        ensures opened { IfOk result (λ part. Opens (told part)
            (places (W.view world.old) place.now) (places (W.view world.new) place.now)) }
        ensures refused { IfErr result (λ e. Refuses e (places (W.view world.old) place.now)
            (places (W.view world.new) place.now)) }
        ensures others { SameBut place.now (places (W.view world.old)) (places (W.view world.new)) }
        ensures only { only (W.view world.old) (W.view world.new) };

    /// Gives the part of a place back.
    fn give_part(world: &mut W, place: &str, part: Self::Part)
        requires { (places (W.view world.old) place.now).is_out ≡ true }
        ensures given { TakesIn (told part)
            (places (W.view world.old) place.now) (places (W.view world.new) place.now) }
        ensures others { SameBut place.now (places (W.view world.old)) (places (W.view world.new)) }
        ensures only { only (W.view world.old) (W.view world.new) };

    ghost same: { (w : WorldView) → only w w };

    ghost more: { (u v w : WorldView) → only u v → only v w → only u w };
}

/// The side that is read.
struct Read;

/// The side that is written.
struct Written;

impl<W: World> Side<W> for Read {
    type Conf = InputConf;

    type Part = W::In;

    ghost place_of = { λ conf. conf.place };

    ghost told = { W.In.told };

    ghost places = { λ w. w.ins };

    ghost only = { OnlyIns };

    fn place(conf: &InputConf) -> &str {
        conf.place.as_str()
    }

    fn open_part(world: &mut W, place: &str) -> Result<W::In, OpenFault> {
        world.open_in(place)
    }

    fn give_part(world: &mut W, place: &str, part: W::In) {
        world.give_in(place, part);
    }

    ghost same = { λ w. record { outs = λ q. refl; clocks = λ who. refl; report = refl } };

    ghost more = { λ u v w h k. record {
      outs = λ q. k.outs q ∙ h.outs q;
      clocks = λ who. k.clocks who ∙ h.clocks who;
      report = k.report ∙ h.report;
    } };
}

impl<W: World> Side<W> for Written {
    type Conf = OutputConf;

    type Part = W::Out;

    ghost place_of = { λ conf. conf.place };

    ghost told = { W.Out.told };

    ghost places = { λ w. w.outs };

    ghost only = { OnlyOuts };

    fn place(conf: &OutputConf) -> &str {
        conf.place.as_str()
    }

    fn open_part(world: &mut W, place: &str) -> Result<W::Out, OpenFault> {
        world.open_out(place)
    }

    fn give_part(world: &mut W, place: &str, part: W::Out) {
        world.give_out(place, part);
    }

    ghost same = { λ w. record { ins = λ q. refl; clocks = λ who. refl; report = refl } };

    ghost more = { λ u v w h k. record {
      ins = λ q. k.ins q ∙ h.ins q;
      clocks = λ who. k.clocks who ∙ h.clocks who;
      report = k.report ∙ h.report;
    } };
}

/// Opens the places of a side in their order, until one isn't opened.
fn open_each<'a, W: World, S: Side<W>>(
    world: &mut W,
    confs: &'a [S::Conf],
    parts: &mut Vec<S::Part>,
) -> Result<(), Unopened<'a>>
    requires home { AreHome (S.places (W.view world.old)) }
    requires apart { IsDistinct bytes_eq (map S.place_of confs.now) }
    requires none { parts.old.items ≡ [] }
    requires room { length confs.now ≤ vec_capacity parts.old }
    ensures opened { OnOk result
        (AreOpened (map S.place_of confs.now) (map S.told parts.new.items)
        (S.places (W.view world.old)) (S.places (W.view world.new))) }
    ensures stopped { IfErr result
        (λ unopened. StopsAt unopened (map S.place_of confs.now)
        (map S.told parts.new.items) (S.places (W.view world.old)) (S.places (W.view world.new))) }
    ensures only { S.only (W.view world.old) (W.view world.new) }
{
    for conf in confs {
        let place = S::place(conf);
        match S::open_part(world, place) {
            Ok(part) => parts.push_reserved(part),
            Err(fault) => return Err(unopened_at(place, fault)),
        }
    }
    Ok(())
}

/// Gives the parts of a side back, in their order.
fn give_each<W: World, S: Side<W>>(world: &mut W, confs: &[S::Conf], parts: Vec<S::Part>)
    requires count { length parts.items ≡ length confs.now }
    requires apart { IsDistinct bytes_eq (map S.place_of confs.now) }
    requires out { PartsAreOut (map S.place_of confs.now) (S.places (W.view world.old)) }
    ensures given { AreGiven (map S.place_of confs.now) (map S.told parts.items)
        (S.places (W.view world.old)) (S.places (W.view world.new)) }
    ensures only { S.only (W.view world.old) (W.view world.new) }
{
    for (conf, part) in confs.iter().zip(parts) {
        S::give_part(world, S::place(conf), part);
    }
}

/// Opens the places of a side in their order. Where one isn't opened, those that were are given back.
fn open_side<'a, W: World, S: Side<W>>(
    world: &mut W,
    confs: &'a [S::Conf],
    mut parts: Vec<S::Part>,
) -> Result<Vec<S::Part>, Unopened<'a>>
    requires home { AreHome (S.places (W.view world.old)) }
    requires apart { IsDistinct bytes_eq (map S.place_of confs.now) }
    requires none { parts.items ≡ [] }
    requires room { length confs.now ≤ vec_capacity parts }
    ensures opened { IfOk result
        (λ parts. AreOpened (map S.place_of confs.now) (map S.told parts.items)
        (S.places (W.view world.old)) (S.places (W.view world.new))) }
    ensures refused { IfErr result
        (λ unopened. AreRefused unopened (map S.place_of confs.now) (S.places (W.view world.old))
        (S.places (W.view world.new))) }
    ensures only { S.only (W.view world.old) (W.view world.new) }
{
    match open_each::<W, S>(world, confs, &mut parts) {
        Ok(()) => Ok(parts),
        Err(unopened) => {
            give_each::<W, S>(world, &confs[..parts.len()], parts);
            Err(unopened)
        }
    }
}

/// Opens the places that are written: those of the outputs in their order, and the journal's. Where one isn't opened,
/// those that were are given back unused, and it is named. It takes no memory.
pub(crate) fn open_written<'a, W: World>(
    world: &mut W,
    config: &'a Config,
    parts: Vec<W::Out>,
) -> Result<(Vec<W::Out>, W::Out), Unopened<'a>>
    requires home { AreHome (W.view world.old).outs }
    requires apart { IsDistinct bytes_eq (out_places config.now) }
    requires none { parts.items ≡ [] }
    requires room { length config.now.outputs ≤ vec_capacity parts }
    ensures opened { IfOk result
        (λ parts. AreOpened (out_places config.now)
        (W.Out.told parts.1 ∷ map W.Out.told parts.0.items)
        (W.view world.old).outs (W.view world.new).outs) }
    ensures refused { IfErr result
        (λ unopened. AreRefused unopened (out_places config.now) (W.view world.old).outs
        (W.view world.new).outs) }
    ensures only { OnlyOuts (W.view world.old) (W.view world.new) }
{
    let outputs = open_side::<W, Written>(world, config.outputs.as_slice(), parts)?;
    let place = config.agent.journal.as_str();
    match world.open_out(place) {
        Ok(journal) => Ok((outputs, journal)),
        Err(fault) => {
            give_each::<W, Written>(world, config.outputs.as_slice(), outputs);
            Err(unopened_at(place, fault))
        }
    }
}

/// Gives back the parts that are written: those of the outputs in their order, and the journal's.
pub(crate) fn give_written<W: World>(
    world: &mut W,
    config: &Config,
    outputs: Vec<W::Out>,
    journal: W::Out,
)
    requires count { length outputs.items ≡ length config.now.outputs }
    requires apart { IsDistinct bytes_eq (out_places config.now) }
    requires out { PartsAreOut (out_places config.now) (W.view world.old).outs }
    ensures given { AreGiven (out_places config.now)
        (W.Out.told journal ∷ map W.Out.told outputs.items)
        (W.view world.old).outs (W.view world.new).outs }
    ensures home { AreHomeBut (out_places config.now) (W.view world.old).outs → AreHome (W.view world.new).outs }
    ensures only { OnlyOuts (W.view world.old) (W.view world.new) }
{
    give_each::<W, Written>(world, config.outputs.as_slice(), outputs);
    world.give_out(config.agent.journal.as_str(), journal);
}

/// Opens the places of a configuration: those of its inputs in their order, those of its outputs in theirs, and
/// the journal's. Where one isn't opened, those that were are given back unused, and it is named.
///
/// No memory is taken once the first place is opened.
pub(crate) fn open_places<'a, W: World>(
    alloc: Global,
    world: &mut W,
    config: &'a Config,
) -> Result<Opened<W::In, W::Out>, Unopened<'a>>
    requires ins { AreHome (W.view world.old).ins }
    requires outs { AreHome (W.view world.old).outs }
    requires inputs_apart { IsDistinct bytes_eq (in_places config.now) }
    requires outputs_apart { IsDistinct bytes_eq (out_places config.now) }
    ensures opened { IfOk result
        (λ opened. OpensAll config.now (read_parts W.In.told opened)
        (written_parts W.Out.told opened) (W.view world.old) (W.view world.new)) }
    ensures refused { IfErr result
        (λ unopened. IsLeftUnopened unopened (in_places config.now) (out_places config.now) (W.view world.old)
        (W.view world.new)) }
    ensures ins_home { OnErr result (AreHome (W.view world.new).ins) }
    ensures outs_home { OnErr result (AreHome (W.view world.new).outs) }
{
    let Ok(inputs) = Vec::with_capacity(alloc, config.inputs.as_slice().len()) else {
        return Err(Unopened::OutOfMemory);
    };
    let Ok(outputs) = Vec::with_capacity(alloc, config.outputs.as_slice().len()) else {
        return Err(Unopened::OutOfMemory);
    };
    let inputs = open_side::<W, Read>(world, config.inputs.as_slice(), inputs)?;
    match open_written(world, config, outputs) {
        Ok((outputs, journal)) => Ok(Opened {
            inputs,
            outputs,
            journal,
        }),
        Err(unopened) => {
            give_each::<W, Read>(world, config.inputs.as_slice(), inputs);
            Err(unopened)
        }
    }
}

/// Gives back the parts that are read: those of the inputs, in their order.
pub(crate) fn give_read<W: World>(world: &mut W, config: &Config, inputs: Vec<W::In>)
    requires count { length inputs.items ≡ length config.now.inputs }
    requires apart { IsDistinct bytes_eq (in_places config.now) }
    requires out { PartsAreOut (in_places config.now) (W.view world.old).ins }
    ensures given { AreGiven (in_places config.now) (map W.In.told inputs.items)
        (W.view world.old).ins (W.view world.new).ins }
    ensures home { AreHomeBut (in_places config.now) (W.view world.old).ins → AreHome (W.view world.new).ins }
    ensures only { OnlyIns (W.view world.old) (W.view world.new) }
{
    give_each::<W, Read>(world, config.inputs.as_slice(), inputs);
}
