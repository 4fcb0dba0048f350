//! How many rows of a table held.
use std::test::Fail;

/// What was seen of a table so far.
#[derive(Drop)]
pub struct Tally<'a> {
    table: &'a str,
    held: u64,
    differ: u64,
}

impl<'a> Tally<'a> {
    /// Nothing was seen of the table.
    pub fn of(table: &'a str) -> Tally<'a> {
        Tally {
            table,
            held: 0,
            differ: 0,
        }
    }

    /// Whether what is there is what is wanted. What differs is printed, with the table and the row.
    pub fn compare<R: Print + AllocGlobal>(
        &mut self,
        rt: &R,
        row: &str,
        wanted: &[u8],
        is: &[u8],
    ) -> Result<(), Fail> {
        if wanted == is {
            self.held = self.held.saturating_add(1);
            return Ok(());
        }
        self.differ = self.differ.saturating_add(1);
        let wanted = String::from_utf8_lossy(rt.alloc(), wanted)?;
        let is = String::from_utf8_lossy(rt.alloc(), is)?;
        println!(rt;
            "{}: {row}: wanted {:?}, and it is {:?}",
            self.table, wanted, is
        )?;
        Ok(())
    }

    /// A row can't be read, for this reason.
    pub fn unread(&self, row: &str, why: &str) -> Fail {
        Fail::new(format_args!("{}: {row}: {why}", self.table))
    }

    /// Prints how many rows held, and gives whether all did.
    pub fn end<R: Print>(self, rt: &R) -> Result<bool, Fail> {
        let Tally {
            table,
            held,
            differ,
        } = self;
        if differ == 0 {
            println!(rt; "{table}: {held} rows held")?;
        } else {
            println!(rt; "{table}: {held} rows held, {differ} differ")?;
        }
        Ok(differ == 0)
    }
}
