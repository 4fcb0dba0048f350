//! What is counted of a run.
ghost use Rattle.std.specs.Prelude.{◌≡◌, ◌+◌, ◌<◌, ◌≤◌, ◌^◌, ◌↔◌, true, ◌++◌, length, IfOk, OnOk, OnErr};
ghost use Rattle.std.specs.Prelude.{IsTrue};
ghost use Rattle.account.specs.Numbers.{Numbers, no_numbers, input_numbers, output_numbers, with_input};
ghost use Rattle.account.specs.Numbers.{with_output, gathered_more, settled_more, started_more, written_more, dropped_more, IsInputBelow};
ghost use Rattle.account.specs.Numbers.{AreBelow};
ghost use Rattle.text_parts.specs.Adds.{Adds};
ghost use Rattle.account.specs.AccountText.{account_text};

use crate::numbers::LARGE;
use crate::text::{append_groups, append_inputs, append_items, append_outputs};
use crate::{InputNumbers, OutputNumbers};
use fixed_num::OutOfMemory;
use std::alloc::Global;
use std::marker::Model;
use text_buffer::TextBuffer;
use text_parts::settle;

/// The numbers of a run: what was read of each input, how many items were made, removed and
/// routed, and what became of the routed ones at each output.
#[derive(Drop)]
pub struct Account {
    inputs: Vec<InputNumbers>,
    made: u64,
    removed: u64,
    routed: u64,
    outputs: Vec<OutputNumbers>,
}

impl Model for Account {
    ghost use Rattle.account.specs.Numbers.{Numbers};

    ghost Value = { Numbers };

    ghost view = { λ a. record {
      inputs = a.inputs.items;
      made = a.made;
      removed = a.removed;
      routed = a.routed;
      outputs = a.outputs.items;
    } };
}

impl Account {
    /// All numbers 0. The flags say which inputs are tracked.
    pub fn new(alloc: Global, inputs: &[bool], outputs: u32) -> Result<Account, OutOfMemory>
        ensures { IfOk result (λ account. account ≡ no_numbers inputs.now outputs) }
    {
        Ok(Account {
            inputs: unread_inputs(alloc, inputs)?,
            made: 0,
            removed: 0,
            routed: 0,
            outputs: vec![in alloc; OutputNumbers::unreached(); outputs as usize]?,
        })
    }

    /// Whether each number is below 2^63.
    pub fn has_room(&self) -> bool
        ensures { IsTrue result ↔ AreBelow (2 ^ 63) self.now }
    {
        self.made < LARGE
            && self.removed < LARGE
            && self.routed < LARGE
            && self.inputs.iter().all(|x| x.has_room())
            && self.outputs.iter().all(|x| x.has_room())
    }

    /// Appends the account's text: a line for each input, then one for the groups of each tracked
    /// one, a line for the items, and a line for each output. `OutOfMemory` leaves `out` as it was.
    pub fn text(&self, out: &mut TextBuffer) -> Result<(), OutOfMemory>
        ensures ok { OnOk result (out.new.items ≡ out.old.items ++ account_text self.now) }
        ensures err { OnErr result (out.new.items ≡ out.old.items) }
    {
        let len = out.len();
        let written = self.append_text(out);
        settle(out, len, written)
    }

    // Appends the account's text, or a front of it.
    #[tactic(auto, unfolding(crate::specs::AccountText::account_text))]
    fn append_text(&self, out: &mut TextBuffer) -> Result<(), OutOfMemory>
        ensures { Adds result out.old.items out.new.items (account_text self.now) }
    {
        append_inputs(out, &self.inputs)?;
        append_groups(out, &self.inputs)?;
        append_items(out, self.made, self.removed, self.routed)?;
        append_outputs(out, &self.outputs)?;
        Ok(())
    }

    /// Counts an input's next pieces: how many there were, how many of them were refused, how many
    /// samples were passed over, how many readings its filter kept out, and how many metrics came.
    pub fn gathered(
        &mut self,
        input: u32,
        pieces: u32,
        refused: u32,
        passed: u32,
        filtered: u32,
        metrics: u32,
    )
        requires within { input < length self.old.inputs }
        requires room { let x = input_numbers self.old input in
            IsInputBelow (2 ^ 64) (gathered_more x pieces refused passed filtered metrics) }
        ensures { let x = input_numbers self.old input in
            self.new ≡ with_input self.old input (gathered_more x pieces refused passed filtered metrics) }
    {
        let x = &mut self.inputs[input as usize];
        x.pieces += u64::from(pieces);
        x.refused += u64::from(refused);
        x.passed += u64::from(passed);
        x.filtered += u64::from(filtered);
        x.gathered += u64::from(metrics);
    }

    /// Notes that an input was read to its end.
    pub fn ended(&mut self, input: u32)
        requires { input < length self.old.inputs }
        ensures { let x = input_numbers self.old input in
            self.new ≡ with_input self.old input (record x { has_ended = true }) }
    {
        self.inputs[input as usize].has_ended = true;
    }

    /// Counts a group of an input, which isn't delivered yet.
    pub fn group_started(&mut self, input: u32)
        requires within { input < length self.old.inputs }
        requires room { (input_numbers self.old input).undelivered + 1 < 2 ^ 64 }
        ensures { self.new ≡ with_input self.old input (started_more (input_numbers self.old input)) }
    {
        self.inputs[input as usize].undelivered += 1;
    }

    /// Counts a group of an input that settled: as delivered, or as rejected.
    pub fn group_settled(&mut self, input: u32, delivered: bool)
        requires within { input < length self.old.inputs }
        requires some { 0 < (input_numbers self.old input).undelivered }
        requires delivered { (input_numbers self.old input).delivered + 1 < 2 ^ 64 }
        requires rejected { (input_numbers self.old input).rejected + 1 < 2 ^ 64 }
        ensures { self.new ≡ with_input self.old input (settled_more (input_numbers self.old input) delivered) }
    {
        let x = &mut self.inputs[input as usize];
        x.undelivered -= 1;
        if delivered {
            x.delivered += 1;
        } else {
            x.rejected += 1;
        }
    }

    /// Counts metrics that were made.
    pub fn made(&mut self, n: u64)
        requires { self.old.made + n < 2 ^ 64 }
        ensures { self.new ≡ record self.old { made = self.old.made + n } }
    {
        self.made += n;
    }

    /// Counts an item that was removed.
    pub fn removed(&mut self)
        requires { self.old.removed + 1 < 2 ^ 64 }
        ensures { self.new ≡ record self.old { removed = self.old.removed + 1 } }
    {
        self.removed += 1;
    }

    /// Counts an item that was routed.
    pub fn routed(&mut self)
        requires { self.old.routed + 1 < 2 ^ 64 }
        ensures { self.new ≡ record self.old { routed = self.old.routed + 1 } }
    {
        self.routed += 1;
    }

    /// Counts a metric that an output's filter kept out.
    pub fn filtered(&mut self, output: u32)
        requires within { output < length self.old.outputs }
        requires room { (output_numbers self.old output).filtered + 1 < 2 ^ 64 }
        ensures { let x = output_numbers self.old output in
            self.new ≡ with_output self.old output (record x { filtered = x.filtered + 1 }) }
    {
        self.outputs[output as usize].filtered += 1;
    }

    /// Counts a metric that came too late for a window, at an output.
    pub fn late(&mut self, output: u32)
        requires within { output < length self.old.outputs }
        requires room { (output_numbers self.old output).late + 1 < 2 ^ 64 }
        ensures { let x = output_numbers self.old output in
            self.new ≡ with_output self.old output (record x { late = x.late + 1 }) }
    {
        self.outputs[output as usize].late += 1;
    }

    /// Counts a metric that an aggregator kept from an output.
    pub fn consumed(&mut self, output: u32)
        requires within { output < length self.old.outputs }
        requires room { (output_numbers self.old output).consumed + 1 < 2 ^ 64 }
        ensures { let x = output_numbers self.old output in
            self.new ≡ with_output self.old output (record x { consumed = x.consumed + 1 }) }
    {
        self.outputs[output as usize].consumed += 1;
    }

    /// Counts a metric that waits at an output.
    pub fn buffered(&mut self, output: u32)
        requires within { output < length self.old.outputs }
        requires room { (output_numbers self.old output).buffered + 1 < 2 ^ 64 }
        ensures { let x = output_numbers self.old output in
            self.new ≡ with_output self.old output (record x { buffered = x.buffered + 1 }) }
    {
        self.outputs[output as usize].buffered += 1;
    }

    /// Counts buffered metrics of an output as written.
    pub fn written(&mut self, output: u32, n: u32)
        requires within { output < length self.old.outputs }
        requires held { n ≤ (output_numbers self.old output).buffered }
        requires room { (output_numbers self.old output).written + n < 2 ^ 64 }
        ensures { self.new ≡ with_output self.old output (written_more (output_numbers self.old output) n) }
    {
        let x = &mut self.outputs[output as usize];
        x.written += u64::from(n);
        x.buffered -= u64::from(n);
    }

    /// Counts buffered metrics of an output as dropped.
    pub fn dropped(&mut self, output: u32, n: u32)
        requires within { output < length self.old.outputs }
        requires held { n ≤ (output_numbers self.old output).buffered }
        requires room { (output_numbers self.old output).dropped + n < 2 ^ 64 }
        ensures { self.new ≡ with_output self.old output (dropped_more (output_numbers self.old output) n) }
    {
        let x = &mut self.outputs[output as usize];
        x.dropped += u64::from(n);
        x.buffered -= u64::from(n);
    }
}

// The numbers of inputs of which nothing was read.
fn unread_inputs(alloc: Global, tracked: &[bool]) -> Result<Vec<InputNumbers>, OutOfMemory>
    ensures { IfOk result (λ inputs. inputs.items ≡ (no_numbers tracked.now 0).inputs) }
{
    let mut inputs = Vec::with_capacity(alloc, tracked.len())?;
    for flag in tracked {
        inputs.push(InputNumbers::unread(*flag))?;
    }
    Ok(inputs)
}
