//! What one more line makes of what was read so far.
ghost use Rattle.std.specs.Prelude.{◌≡◌, option_map, OnOk};
ghost use Rattle.journal_reader.specs.States.{Tries, Makes, MakesIt};
ghost use Rattle.journal_reader.specs.Steps.{starting, set_input, set_agg, set_output, with_input, with_agg};
ghost use Rattle.journal_reader.specs.Steps.{with_output, told_metric, told_report};
ghost use Rattle.journal_reader.specs.Steps.{told_entry, counted_line, first_counted, ending, counting, going_on};
ghost use Rattle.journal_reader.specs.Steps.{telling, setting, after, closed};

use crate::account_lines::{forms_of, is_end_of, is_of};
use crate::entry::{Sizes, report_in};
use crate::setup::{agg_in, input_in, output_in, start_in, words_of};
use crate::state::{Stage, State, put_last, report_last};
use crate::views::{entry_in, metric_in};
use account::{AggLine, Entry, Report};
use fixed_num::OutOfMemory;
use std::alloc::Global;

impl State {
    /// The moment of the start.
    #[tactic(auto, unfolding(crate::specs::Steps::starting))]
    fn starting(&mut self, line: &[u8]) -> bool
        ensures { MakesIt result (starting self.old line.now) self.new }
    {
        let Some(moment) = start_in(&mut words_of(line)) else {
            return false;
        };
        self.setup.start = moment;
        self.stage = Stage::Setting;
        true
    }

    /// The next input of the set-up: inputs come first.
    #[tactic(auto, unfolding(crate::specs::Steps::set_input))]
    fn next_input(&self, line: &[u8]) -> Option<Option<u32>>
        ensures { set_input self.now line.now ≡ option_map (λ most. with_input self.now most) result }
    {
        let setup = &self.setup;
        if !setup.aggs.as_slice().is_empty() || !setup.outputs.as_slice().is_empty() {
            return None;
        }
        input_in(setup.inputs.as_slice().len() as u64, &mut words_of(line))
    }

    /// The next aggregator of the set-up: aggregators come before outputs.
    #[tactic(auto, unfolding(crate::specs::Steps::set_agg))]
    fn next_agg(&self, line: &[u8]) -> Option<AggLine>
        ensures { set_agg self.now line.now ≡ option_map (λ agg. with_agg self.now agg) result }
    {
        let setup = &self.setup;
        if !setup.outputs.as_slice().is_empty() {
            return None;
        }
        agg_in(setup.aggs.as_slice().len() as u64, &mut words_of(line))
    }

    /// The next output of the set-up.
    #[tactic(auto, unfolding(crate::specs::Steps::set_output))]
    fn next_output(&self, line: &[u8]) -> Option<(u32, u32)>
        ensures { set_output self.now line.now ≡ option_map (λ sizes. with_output self.now sizes) result }
    {
        output_in(
            self.setup.outputs.as_slice().len() as u64,
            &mut words_of(line),
        )
    }

    /// A metric of the last entry, of which some are owed.
    #[tactic(auto, unfolding(crate::specs::Steps::told_metric))]
    fn told_metric(&mut self, alloc: Global, line: &[u8]) -> Result<bool, OutOfMemory>
        ensures { Makes result (told_metric self.old line.now) self.new }
    {
        let Some(m) = metric_in(alloc, &mut words_of(line))? else {
            return Ok(false);
        };
        let copy = m.copy()?;
        self.known.push(alloc, copy)?;
        put_last(alloc, &mut self.last, m)?;
        self.owed = self.owed.saturating_sub(1);
        Ok(true)
    }

    /// A report of the last entry, of a group that an entry up to it gathered.
    #[tactic(auto, unfolding(crate::specs::Steps::told_report))]
    fn told_report(&mut self, alloc: Global, line: &[u8]) -> Result<bool, OutOfMemory>
        ensures { Tries result (told_report self.old line.now) self.old self.new }
    {
        let Some((group, delivered)) = report_in(&mut words_of(line)) else {
            return Ok(false);
        };
        let Some(input) = self.groups.input_of(group) else {
            return Ok(false);
        };
        let report = Report {
            group,
            input,
            delivered,
        };
        report_last(alloc, &mut self.last, report)
    }

    /// The last entry is ended.
    fn close(&mut self, alloc: Global) -> Result<(), OutOfMemory>
        ensures { OnOk result (self.new ≡ closed self.old) }
    {
        match self.last.take() {
            Some(e) => self.entries.push(alloc, e),
            None => Ok(()),
        }
    }

    /// The next entry.
    #[tactic(auto, unfolding(crate::specs::Steps::told_entry))]
    fn told_entry(&mut self, alloc: Global, line: &[u8]) -> Result<bool, OutOfMemory>
        ensures { Tries result (told_entry self.old line.now) self.old self.new }
    {
        let sizes = Sizes {
            aggs: self.setup.aggs.as_slice().len(),
            outs: self.setup.outputs.as_slice().len(),
        };
        let known = self.known.as_slice();
        let Some(begun) = entry_in(alloc, known, sizes, &mut words_of(line))? else {
            return Ok(false);
        };
        self.close(alloc)?;
        self.groups.put_group_of(&begun.entry)?;
        self.last = Some(begun.entry);
        self.owed = begun.owed;
        self.stage = Stage::Telling;
        Ok(true)
    }

    /// The next line of the account.
    #[tactic(auto, unfolding(crate::specs::Steps::counted_line))]
    fn counted_line(&mut self, alloc: Global, line: &[u8]) -> Result<bool, OutOfMemory>
        ensures { Makes result (counted_line self.old line.now) self.new }
    {
        let Some(form) = self.forms.as_slice().get(self.counted) else {
            return Ok(false);
        };
        if !is_of(form, &mut words_of(line)) {
            return Ok(false);
        }
        self.account.put_line(line)?;
        self.counted += 1;
        Ok(true)
    }

    /// The first line of the account.
    #[tactic(auto, unfolding(crate::specs::Steps::first_counted))]
    fn first_counted(&mut self, alloc: Global, line: &[u8]) -> Result<bool, OutOfMemory>
        ensures { Makes result (first_counted self.old line.now) self.new }
    {
        self.close(alloc)?;
        self.forms = forms_of(alloc, &self.setup)?;
        self.stage = Stage::Counting;
        self.counted_line(alloc, line)
    }

    /// The end.
    #[tactic(auto, unfolding(crate::specs::Steps::ending))]
    fn ending(&mut self, line: &[u8]) -> bool
        ensures { MakesIt result (ending self.old line.now) self.new }
    {
        let entries = self.entries.as_slice().len() as u64;
        if !is_end_of(entries, &mut words_of(line)) {
            return false;
        }
        self.stage = Stage::Over;
        true
    }

    /// Behind the account its end comes.
    #[tactic(auto, unfolding(crate::specs::Steps::counting))]
    fn counting(&mut self, alloc: Global, line: &[u8]) -> Result<bool, OutOfMemory>
        ensures { Makes result (counting self.old line.now) self.new }
    {
        if self.counted == self.forms.as_slice().len() {
            return Ok(self.ending(line));
        }
        self.counted_line(alloc, line)
    }

    /// The next entry, or the first line of the account.
    #[tactic(auto, unfolding(crate::specs::Steps::going_on))]
    fn going_on(&mut self, alloc: Global, line: &[u8]) -> Result<bool, OutOfMemory>
        ensures { Makes result (going_on self.old line.now) self.new }
    {
        if self.told_entry(alloc, line)? {
            return Ok(true);
        }
        self.first_counted(alloc, line)
    }

    /// What may follow an entry.
    #[tactic(auto, unfolding(crate::specs::Steps::telling))]
    fn telling(&mut self, alloc: Global, line: &[u8]) -> Result<bool, OutOfMemory>
        ensures { Makes result (telling self.old line.now) self.new }
    {
        if self.owed != 0 {
            return self.told_metric(alloc, line);
        }
        if self.told_report(alloc, line)? {
            return Ok(true);
        }
        self.going_on(alloc, line)
    }

    /// What may follow the start and the lines of the set-up.
    #[tactic(auto, unfolding(crate::specs::Steps::setting))]
    fn setting(&mut self, alloc: Global, line: &[u8]) -> Result<bool, OutOfMemory>
        ensures { Makes result (setting self.old line.now) self.new }
    {
        if let Some(most) = self.next_input(line) {
            self.setup.inputs.push(alloc, most)?;
            return Ok(true);
        }
        if let Some(agg) = self.next_agg(line) {
            self.setup.aggs.push(alloc, agg)?;
            return Ok(true);
        }
        if let Some(sizes) = self.next_output(line) {
            self.setup.outputs.push(alloc, sizes)?;
            return Ok(true);
        }
        self.going_on(alloc, line)
    }

    /// Takes one more line. False where no journal has it there: then nothing more is read.
    #[tactic(auto, unfolding(crate::specs::Steps::after))]
    pub(crate) fn take_line(&mut self, alloc: Global, line: &[u8]) -> Result<bool, OutOfMemory>
        ensures { Makes result (after self.old line.now) self.new }
    {
        match self.stage {
            Stage::Starting => Ok(self.starting(line)),
            Stage::Setting => self.setting(alloc, line),
            Stage::Telling => self.telling(alloc, line),
            Stage::Counting => self.counting(alloc, line),
            Stage::Over => Ok(false),
        }
    }
}

/// How many views stand in a Route whose item was removed.
pub(crate) fn removed_views(e: &Option<Entry>) -> usize {
    match e {
        Some(
            Entry::Route {
                whole: None,
                aggs,
                outs,
                ..
            },
        ) => aggs.as_slice().len().saturating_add(outs.as_slice().len()),
        _ => 0,
    }
}
