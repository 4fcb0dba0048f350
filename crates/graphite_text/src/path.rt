//! Paths: the segments of a bucket, and tags.
ghost use Rattle.std.specs.Prelude.{IfOk};
ghost use Rattle.text_parts.specs.Chain.{Gives};
ghost use Rattle.graphite_text.specs.Path.{path_of, IsPath};
ghost use Rattle.graphite_text.specs.Views.{path_view};

use format_words::{ShapeFault, pairs_of, segments_of};
use std::alloc::Global;
use text_parts::{ReadError, first_part};

/// A path: the segments of its bucket, and its tags.
#[derive(Drop)]
pub(crate) struct Path<'a> {
    pub segments: Vec<&'a str>,
    pub tags: Vec<(&'a str, &'a str)>,
}

/// The path that a text is.
#[tactic(auto, unfolding(crate::specs::Path::path_of))]
pub(crate) fn path_of(alloc: Global, text: &str) -> Result<Path<'_>, ReadError<ShapeFault>>
    ensures gives { Gives path_view result (path_of text.now) }
    ensures filled { IfOk result (λ path. IsPath (path_view path)) }
{
    let (bucket, tags) = first_part(b';', text);
    let segments = segments_of(alloc, bucket)?;
    let tags = pairs_of(alloc, b';', tags)?;
    Ok(Path { segments, tags })
}
