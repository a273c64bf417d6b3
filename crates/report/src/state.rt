// The report on a state block.
ghost use Rattle.std.specs.Prelude.{◌≡◌, ◌+◌, ◌<◌, ◌≤◌, [], ◌∷◌, ◌++◌, length, codes, ◌==◌};
ghost use Rattle.std.specs.List.{range_with_len, flat_map};
ghost use Rattle.std.specs.Option.{unwrap_or};
ghost use Rattle.std.specs.Str.{bytes_eq};
ghost use Rattle.interfaces.specs.States.{name_length, pcr_count, value_limit};
ghost use Rattle.text.specs.Cut.{tab};
ghost use Rattle.text.specs.Pairs.{pairs};
ghost use Rattle.tables.specs.Tables.{place_under};
ghost use Rattle.block.specs.Layout.{big_endian, block_snapshot, entries_in, number_in};
ghost use Rattle.block.specs.Views.{block_bytes};
ghost use Rattle.report.specs.Reports.{labelled};
ghost use Rattle.report.specs.Rooms.{entries_room, entry_room, pcr_room, pcrs_room, presence_room, state_room, time_room};
ghost use Rattle.report.specs.StateReports.{shown_entry, shown_pcr, shown_presence, shown_state, shown_time, state_report};
ghost use Rattle.report.specs.Views.{Adds, report_bytes};

use crate::report::{Report, STATE_REPORT_LIMIT};
use block::block::Block;
use interfaces::fault::Refusal;
use interfaces::state::{PCR_COUNT, PCR_LENGTH, ReaderState, read_pcr, read_time};

// Whether an entry is the first of its Name.
fn is_first(block: &Block, name: &[u8], i: usize) -> bool
    requires { i < number_in (block_bytes block.now) }
    ensures { result ≡ (unwrap_or (place_under bytes_eq (entries_in (block_bytes block.now)) name.now) (number_in (block_bytes block.now)) == i) }
{
    block.place(name) == Some(i)
}

fn wide(bytes: &[u8]) -> usize
    requires { length bytes.now ≡ 8 }
    ensures { result ≡ big_endian bytes.now }
{
    u64::from_be_bytes(bytes.try_into().unwrap()) as usize
}

fn narrow(bytes: &[u8]) -> usize
    requires { length bytes.now ≡ 4 }
    ensures { result ≡ big_endian bytes.now }
{
    u32::from_be_bytes(bytes.try_into().unwrap()) as usize
}

impl<const N: usize> Report<N> {
    // A line for a PCR that is not zero.
    fn add_pcr(&mut self, block: &Block, index: usize)
        requires number { index < pcr_count }
        requires room { length (report_bytes self.old) + pcr_room ≤ N }
        ensures { Adds (report_bytes self.old) (shown_pcr (block_snapshot (block_bytes block.now)).pcrs index) pcr_room (report_bytes self.new) }
    {
        let value = read_pcr(block, index).unwrap();
        if value.bytes == [0; PCR_LENGTH] {
            return;
        }
        self.add(b"pcr\t");
        self.add_decimal(index);
        self.add(b"\t");
        self.add_pairs(&value.bytes);
        self.add(b"\n");
    }

    fn add_pcrs(&mut self, block: &Block)
        requires { length (report_bytes self.old) + pcrs_room ≤ N }
        ensures { Adds (report_bytes self.old) (flat_map (shown_pcr (block_snapshot (block_bytes block.now)).pcrs) (range_with_len 0 pcr_count)) pcrs_room (report_bytes self.new) }
    {
        for index in 0..PCR_COUNT {
            self.add_pcr(block, index);
        }
    }

    fn add_value(&mut self, name: &[u8], value: &[u8])
        requires name { length name.now ≡ name_length }
        requires value { length value.now ≤ value_limit }
        requires room { length (report_bytes self.old) + entry_room ≤ N }
        ensures { Adds (report_bytes self.old) (labelled (codes "value") (pairs name.now ++ tab ∷ pairs value.now)) entry_room (report_bytes self.new) }
    {
        self.add(b"value\t");
        self.add_pairs(name);
        self.add(b"\t");
        self.add_pairs(value);
        self.add(b"\n");
    }

    // A line for an entry that is the first of its Name.
    fn add_entry(&mut self, block: &Block, i: usize)
        requires number { i < number_in (block_bytes block.now) }
        requires room { length (report_bytes self.old) + entry_room ≤ N }
        ensures { Adds (report_bytes self.old) (shown_entry (block_bytes block.now) i) entry_room (report_bytes self.new) }
    {
        // An entry of this number is used.
        let (name, value) = block.entry(i).unwrap();
        if is_first(block, name, i) {
            self.add_value(name, value);
        }
    }

    fn add_entries(&mut self, block: &Block)
        requires { length (report_bytes self.old) + entries_room ≤ N }
        ensures { Adds (report_bytes self.old) (flat_map (shown_entry (block_bytes block.now)) (range_with_len 0 (number_in (block_bytes block.now)))) entries_room (report_bytes self.new) }
    {
        for i in 0..block.number() {
            self.add_entry(block, i);
        }
    }

    fn add_time(&mut self, block: &Block)
        requires { length (report_bytes self.old) + time_room ≤ N }
        ensures { Adds (report_bytes self.old) (shown_time (block_snapshot (block_bytes block.now)).time) time_room (report_bytes self.new) }
    {
        let info = read_time(block);
        // Time 8 bytes, clock 8, reset count 4, restart count 4, safe flag 1.
        self.add_count(b"time", wide(&info[..8]));
        self.add_count(b"clock", wide(&info[8..16]));
        self.add_count(b"resets", narrow(&info[16..20]));
        self.add_count(b"restarts", narrow(&info[20..24]));
        self.add_count(b"safe", info[24] as usize);
    }

    fn add_presence(&mut self, present: bool)
        requires { length (report_bytes self.old) + presence_room ≤ N }
        ensures { Adds (report_bytes self.old) (shown_presence present) presence_room (report_bytes self.new) }
    {
        if present {
            self.add(b"presence\tyes\n");
        } else {
            self.add(b"presence\tno\n");
        }
    }

    fn add_state(&mut self, block: &Block)
        requires { length (report_bytes self.old) + state_room ≤ N }
        ensures { Adds (report_bytes self.old) (shown_state (block_snapshot (block_bytes block.now)) (block_bytes block.now)) state_room (report_bytes self.new) }
    {
        self.add_pcrs(block);
        self.add_count(b"count", block.change_count() as usize);
        self.add_entries(block);
        self.add_time(block);
        self.add_count(b"locality", block.locality() as usize);
        self.add_presence(block.presence());
    }
}

// The lines that say what a state block means, or its refusal.
pub fn state_report(bytes: &[u8]) -> Report<STATE_REPORT_LIMIT>
    ensures { report_bytes result ≡ state_report bytes.now }
{
    let mut report = Report::new();
    match Block::try_from(bytes) {
        Ok(block) => report.add_state(&block),
        Err(code) => report.add_fault(&Refusal::call(code).at(0)),
    }
    report
}
