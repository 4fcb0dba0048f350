//! Expositions as they are written.
ghost use Rattle.std.specs.Prelude.{◌≡◌, ◌++◌, [], ◌∷◌, codes, flat_map, IfOk, OnOk, OnErr};
ghost use Rattle.fixed_num.specs.Canonical.{canonical_text};
ghost use Rattle.text_parts.specs.Adds.{Adds};
ghost use Rattle.metric.specs.Numbers.{number_text};
ghost use Rattle.openmetrics_text.specs.Writing.{labels_of, written_labels, point_of};
ghost use Rattle.openmetrics_text.specs.Writing.{points_of_field, points_of_metric, points_of};
ghost use Rattle.openmetrics_text.specs.Writing.{batch_text};
ghost use Rattle.openmetrics_text.specs.Groups.{series_key};
ghost use Rattle.openmetrics_text.specs.Texts.{AreIn, IsAt, Puts};

use crate::clean::write_family;
use crate::families::append_families;
use crate::label_texts::{LabelTexts, label_texts};
use crate::texts::{Extent, Row, Texts, families_of};
use fixed_num::{Fixed, Moment, OutOfMemory};
use metric::{Metric, Text, Value};
use std::alloc::Global;
use text_buffer::TextBuffer;
use text_parts::{append_bytes, append_words, settle};

/// A time as seconds.
fn seconds_of(time: &Moment) -> Fixed
    ensures { result ≡ time.now }
{
    match Fixed::of_billionths(*time as i128) {
        Some(seconds) => seconds,
        None => unreachable!(),
    }
}

/// Appends a time as seconds.
fn append_time(alloc: Global, out: &mut TextBuffer, time: &Moment) -> Result<(), OutOfMemory>
    ensures { Adds result out.old.items out.new.items (canonical_text time.now) }
{
    seconds_of(time).append(alloc, out)?;
    Ok(())
}

/// Appends a number and a time.
fn append_numbers(
    alloc: Global,
    out: &mut TextBuffer,
    value: &Value,
    time: &Moment,
) -> Result<(), OutOfMemory>
    ensures { Adds result out.old.items out.new.items
        (number_text value.now ++ codes " " ++ canonical_text time.now) }
{
    value.append_number(alloc, out)?;
    append_words(out, " ")?;
    append_time(alloc, out, time)?;
    Ok(())
}

/// Appends the name and the labels of a sample, and a space.
fn append_head(out: &mut TextBuffer, family: &[u8], labels: &[u8]) -> Result<(), OutOfMemory>
    ensures { Adds result out.old.items out.new.items (family.now ++ labels.now ++ codes " ") }
{
    append_bytes(out, family)?;
    append_bytes(out, labels)?;
    append_words(out, " ")?;
    Ok(())
}

/// Appends the line of a sample, given the text of its labels.
fn append_point(
    alloc: Global,
    out: &mut TextBuffer,
    family: &[u8],
    labels: &[u8],
    value: &Value,
    time: &Moment,
) -> Result<(), OutOfMemory>
    ensures { Adds result out.old.items out.new.items
        ((family.now ++ labels.now ++ codes " ")
        ++ (number_text value.now ++ codes " " ++ canonical_text time.now) ++ codes "\n") }
{
    append_head(out, family, labels)?;
    append_numbers(alloc, out, value, time)?;
    append_words(out, "\n")?;
    Ok(())
}

/// The series of samples: the text of their labels, and where that stands which stands for the set of these.
#[derive(Clone, Copy)]
struct Series<'a> {
    labels: &'a [u8],
    extent: Extent,
}

/// Puts the sample of a field among others, given the text of its family and its series.
fn put_line(
    alloc: Global,
    texts: &mut Texts,
    family: &[u8],
    series: &Series,
    metric: &Metric,
    field: &(Text, Value),
) -> Result<(), OutOfMemory>
    requires family { family.now ≡ (point_of metric.now field.now).family }
    requires labels { series.now.labels.now ≡ written_labels (labels_of metric.now.tags) }
    requires series { IsAt texts.old.bytes.items series.now.extent (series_key (labels_of metric.now.tags)) }
    ensures { OnOk result (Puts texts.old texts.new (point_of metric.now field.now ∷ [])) }
{
    let from = texts.bytes.len();
    let time = metric.time();
    append_point(
        alloc,
        &mut texts.bytes,
        family,
        series.labels,
        &field.1,
        &time,
    )?;
    texts.rows.push(Row {
        family: family.len(),
        series: series.extent,
        time,
        line: Extent {
            from,
            to: texts.bytes.len(),
        },
    })?;
    Ok(())
}

/// Puts the sample of a field among others, which a text has not. The text of its family is built in `family`, in place
/// of what it held.
fn put_field(
    alloc: Global,
    texts: &mut Texts,
    family: &mut TextBuffer,
    series: &Series,
    metric: &Metric,
    field: &(Text, Value),
) -> Result<(), OutOfMemory>
    requires labels { series.now.labels.now ≡ written_labels (labels_of metric.now.tags) }
    requires series { IsAt texts.old.bytes.items series.now.extent (series_key (labels_of metric.now.tags)) }
    ensures { OnOk result (Puts texts.old texts.new (points_of_field metric.now field.now)) }
{
    if field.1.is_text() {
        return Ok(());
    }
    write_family(family, metric.name().as_str(), field.0.as_str())?;
    put_line(alloc, texts, family.as_slice(), series, metric, field)?;
    Ok(())
}

/// Puts the samples of fields among others.
fn put_fields(
    alloc: Global,
    texts: &mut Texts,
    family: &mut TextBuffer,
    series: &Series,
    metric: &Metric,
    fields: &[(Text, Value)],
) -> Result<(), OutOfMemory>
    requires labels { series.now.labels.now ≡ written_labels (labels_of metric.now.tags) }
    requires series { IsAt texts.old.bytes.items series.now.extent (series_key (labels_of metric.now.tags)) }
    ensures { OnOk result
        (Puts texts.old texts.new (flat_map (points_of_field metric.now) fields.now)) }
{
    for field in fields {
        put_field(alloc, texts, family, series, metric, field)?;
    }
    Ok(())
}

/// Puts what stands for labels behind the texts, and says where it stands.
fn put_series(texts: &mut Texts, key: &[u8]) -> Result<Extent, OutOfMemory>
    ensures puts { OnOk result (Puts texts.old texts.new []) }
    ensures at { IfOk result (λ extent. IsAt texts.new.bytes.items extent key.now) }
{
    let from = texts.bytes.len();
    append_bytes(&mut texts.bytes, key)?;
    Ok(Extent {
        from,
        to: texts.bytes.len(),
    })
}

/// Puts the samples of a metric among others. The texts of its labels and its families are built in `labels` and `family`,
/// in place of what these held.
#[tactic(auto, unfolding(crate::specs::Writing::points_of_metric))]
fn put_metric(
    alloc: Global,
    texts: &mut Texts,
    labels: &mut LabelTexts,
    family: &mut TextBuffer,
    metric: &Metric,
) -> Result<(), OutOfMemory>
    ensures { OnOk result (Puts texts.old texts.new (points_of_metric metric.now)) }
{
    label_texts(alloc, metric, labels)?;
    let series = Series {
        labels: labels.written.as_slice(),
        extent: put_series(texts, labels.key.as_slice())?,
    };
    put_fields(alloc, texts, family, &series, metric, metric.fields())?;
    Ok(())
}

/// The texts of the samples of a batch.
fn texts_of(alloc: Global, batch: &[Metric]) -> Result<Texts, OutOfMemory>
    ensures { IfOk result (λ texts. AreIn texts (points_of batch.now)) }
{
    let mut texts = Texts::new(alloc);
    let mut labels = LabelTexts::new(alloc);
    let mut family = TextBuffer::new(alloc);
    for metric in batch {
        put_metric(alloc, &mut texts, &mut labels, &mut family, metric)?;
    }
    Ok(texts)
}

/// Appends the exposition of a batch.
fn append_batch(alloc: Global, batch: &[Metric], out: &mut TextBuffer) -> Result<(), OutOfMemory>
    ensures { Adds result out.old.items out.new.items (batch_text batch.now) }
{
    let texts = texts_of(alloc, batch)?;
    let families = families_of(alloc, texts.bytes.as_slice(), texts.rows.as_slice())?;
    append_families(alloc, out, families.as_slice())?;
    append_words(out, "# EOF\n")?;
    Ok(())
}

/// Appends a batch as an exposition of OpenMetrics 1.0's text format: a sample for each field that is no text, and
/// `# EOF` at the end. A sample's name, its family, is the measurement, with `_` and the field's key behind it unless
/// the key is `value`; its labels are the metric's tags in the order of their keys. In names each byte other than a
/// letter, a digit, `_` or, in families, `:` is written as `_`, and `_` stands before a digit at the front; of two tags
/// of one label the last value stays, at the first's place.
///
/// Families stand in the order of their first samples, each behind the line `# TYPE family unknown`; in a family its
/// series, the sets of labels with their values, in the order of their first samples; in a series its samples by time,
/// of two with one time the last. A number is canonical, a truth value 1 or 0, a time its seconds since 1970. After
/// OutOfMemory `out` is as before.
pub fn write_batch(alloc: Global, batch: &[Metric], out: &mut TextBuffer) -> Result<(), OutOfMemory>
    ensures ok { OnOk result (out.new.items ≡ out.old.items ++ batch_text batch.now) }
    ensures err { OnErr result (out.new.items ≡ out.old.items) }
{
    let before = out.len();
    let written = append_batch(alloc, batch, out);
    settle(out, before, written)
}
