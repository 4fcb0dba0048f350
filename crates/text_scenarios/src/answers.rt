//! Which call a piece is put to.
use crate::buffers::append_buffered;
use crate::chains::append_chained;
use crate::changes::{append_changed, append_series};
use crate::configurations::{append_configuration, append_interval};
use crate::formats::{
    append_exposition, append_graphite, append_influx, append_said, append_statsd, append_template,
};
use crate::metrics::{append_filtered, append_glob, append_left, append_metric};
use crate::numbers::{
    append_decimal, append_grown, append_left_of, append_one, append_quotient, append_sum,
    append_whole,
};
use crate::parts::{
    LABEL, append_cut, append_key, append_offsets, append_part, append_separated, append_text,
    append_written_label,
};
use crate::processors::{
    append_converted, append_deduplicated, append_pattern, append_renamed, append_rewritten,
};
use crate::written::{append_batch, append_lines, append_made, append_untimed};
use fixed_num::{read_int, read_uint};
use scenario_tables::Row;
use std::alloc::Global;
use std::str;
use std::test::Fail;
use text_buffer::TextBuffer;

/// Appends what comes of a piece, each line with its newline. The key says which call it is put to.
pub fn answer(
    alloc: Global,
    row: &Row,
    key: &str,
    piece: &[u8],
    out: &mut TextBuffer,
) -> Result<(), Fail> {
    match key {
        "influx" => append_influx(alloc, piece, out),
        "statsd" => append_statsd(alloc, piece, out),
        "said" => append_said(alloc, piece, out),
        "graphite" => append_graphite(alloc, row, piece, out),
        "expositions" => append_exposition(alloc, row, piece, out),
        "configurations" => append_configuration(alloc, piece, out),
        "flush_intervals" => append_interval(alloc, piece, out),
        "labels" => append_part(alloc, &LABEL, piece, out),
        "decimals" => append_decimal(alloc, piece, out),
        "signed" => append_whole(read_int(piece), out),
        "unsigned" => append_whole(read_uint(piece), out),
        _ => answer_text(alloc, row, key, str::from_utf8(piece)?, out),
    }
}

/// Appends what comes of a piece that is put to a call as a text.
fn answer_text(
    alloc: Global,
    row: &Row,
    key: &str,
    piece: &str,
    out: &mut TextBuffer,
) -> Result<(), Fail> {
    match key {
        "templates" => append_template(alloc, piece, out),
        "written" => append_made(alloc, row, piece, out),
        "untimed" => append_untimed(alloc, piece, out),
        "graphite_written" => append_lines(alloc, piece, out),
        "openmetrics_written" => append_batch(alloc, piece, out),
        "metrics" => append_metric(alloc, row, piece, out),
        "changed" => append_changed(alloc, piece, out),
        "series" => append_series(alloc, piece, out),
        "renamed" => append_renamed(alloc, row, piece, out),
        "converted" => append_converted(alloc, row, piece, out),
        "deduplicated" => append_deduplicated(alloc, row, piece, out),
        "rewritten" => append_rewritten(alloc, row, piece, out),
        "patterns" => append_pattern(alloc, piece, out),
        "chained" => append_chained(alloc, row, piece, out),
        "globs" => append_glob(alloc, piece, out),
        "filtered" => append_filtered(alloc, row, piece, out),
        "left" => append_left(alloc, row, piece, out),
        "quotients" => append_quotient(alloc, piece, out),
        "sums" => append_sum(alloc, piece, out),
        "rooms" => append_grown(alloc, piece, out),
        "taken" => append_left_of(alloc, piece, out),
        "alone" => append_one(alloc, piece, out),
        "keys" => append_key(alloc, piece, out),
        "separated" => append_separated(piece, out),
        "cut" => append_cut(piece, out),
        "words" => append_offsets(piece, out),
        "buffered" => append_buffered(alloc, piece, out),
        "grown" => append_text(alloc, piece, out),
        "labels_written" => append_written_label(piece, out),
        _ => Err(Fail::new(format_args!("no call for {key}"))),
    }
}
