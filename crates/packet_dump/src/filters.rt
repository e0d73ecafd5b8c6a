//! Parsing of the filter of a command line: its filter options (`--host`, `--net`, `--vlan`, `--port`) and its filter
//! expression.

ghost use Rattle.std.specs.Prelude.{◌≡◌, IfErr, IfOk, string_bytes};
ghost use Rattle.packet_filter.specs.Refusals.{IsFilterText};
ghost use Rattle.packet_filter.specs.Trees.{both_of, tree_of};
ghost use Rattle.packet_dump.specs.Filters.{AddsOption, IsFilterFault, IsFilterOf, IsNonEmpty, IsOptionFault};
ghost use Rattle.packet_dump.specs.Filters.{IsTextFault, option_places, option_text, qualifier, tree_in};
ghost use Rattle.packet_dump.specs.declared.filters.FilterFault.{FilterFault};

use crate::options::{FilterKind, FilterText, FilterTexts};
use packet_filter::{Filter, FilterError, FilterErrorKind};
use std::alloc::{AllocError, Global};

/// Reason why a command line has no filter.
#[derive(Drop)]
pub enum FilterFault {
    OutOfMemory,
    /// Text that is no filter expression, and the error of its first wrong token. The text of an option such as
    /// `--host x` is `host x`.
    Wrong { text: String, error: FilterError },
}

/// Parses the filter of a command line. Each filter option (such as `--port 53`) is an expression of its own, parsed in
/// the order of the command line, and then the filter expression is; the filter matches what all of them match. Returns
/// `None` if there are no filter options, and the expression is blank.
pub fn filter_of(
    alloc: Global,
    options: FilterTexts<'_>,
    expression: String,
) -> Result<Option<Filter>, FilterFault>
    ensures ok { IfOk result
        (λ filter. IsFilterOf (option_places options.entry) (string_bytes expression) (tree_in filter)) }
    ensures some { IfOk result IsNonEmpty }
    ensures err { IfErr result (IsFilterFault (option_places options.entry) (string_bytes expression)) }
{
    let mut filter = None;
    filter = with_option(alloc, filter, options.sixth)?;
    filter = with_option(alloc, filter, options.fifth)?;
    filter = with_option(alloc, filter, options.fourth)?;
    filter = with_option(alloc, filter, options.third)?;
    filter = with_option(alloc, filter, options.second)?;
    filter = with_option(alloc, filter, options.first)?;
    with_text(filter, parse_text(alloc, expression)?)
}

/// Adds a filter option, if present, to the filter of the options before it.
fn with_option(
    alloc: Global,
    before: Option<Filter>,
    option: Option<FilterText<'_>>,
) -> Result<Option<Filter>, FilterFault>
    ensures ok { IfOk result (λ filter. AddsOption (tree_in before) option.entry (tree_in filter)) }
    ensures some { IsNonEmpty before → IfOk result IsNonEmpty }
    ensures err { IfErr result (IsOptionFault option.entry) }
{
    let Some(option) = option else {
        return Ok(before);
    };
    match option_text(alloc, option) {
        Ok(text) => with_text(before, parse_text(alloc, text)?),
        Err(_) => Err(FilterFault::OutOfMemory),
    }
}

/// Combines the filter of the texts before a text with that of the text. A filter that matches every packet is `None`.
fn with_text(before: Option<Filter>, own: Filter) -> Result<Option<Filter>, FilterFault>
    ensures tree { IfOk result (λ filter. tree_in filter ≡ both_of (tree_in before) (tree_of own)) }
    ensures some { IsNonEmpty before → IfOk result IsNonEmpty }
    ensures err { IfErr result (λ fault. fault ≡ FilterFault.OutOfMemory) }
{
    if own.is_empty() {
        return Ok(before);
    }
    let Some(before) = before else {
        return Ok(Some(own));
    };
    match before.both(own) {
        Ok(filter) => Ok(Some(filter)),
        Err(_) => Err(FilterFault::OutOfMemory),
    }
}

/// Parses a filter expression. An error has the text.
pub fn parse_text(alloc: Global, text: String) -> Result<Filter, FilterFault>
    ensures ok { IfOk result (λ filter. IsFilterText (string_bytes text) (tree_of filter)) }
    ensures err { IfErr result (IsTextFault (string_bytes text)) }
{
    match Filter::parse(alloc, text.as_str()) {
        Ok(filter) => Ok(filter),
        Err(
            FilterError {
                kind: FilterErrorKind::Memory,
                ..
            },
        ) => Err(FilterFault::OutOfMemory),
        Err(error) => Err(FilterFault::Wrong { text, error }),
    }
}

/// Returns the expression of a filter option: `port 53` of `--port 53`.
fn option_text(alloc: Global, option: FilterText<'_>) -> Result<String, AllocError>
    ensures { IfOk result (λ text. string_bytes text ≡ option_text option.entry) }
{
    let mut text = String::new(alloc);
    text.push_str(qualifier(option.kind))?;
    text.push_str(option.text)?;
    Ok(text)
}

/// Returns the qualifier of a filter option, and a space.
fn qualifier(kind: FilterKind) -> &'static str
    ensures { result.now ≡ qualifier kind }
{
    match kind {
        FilterKind::Host => "host ",
        FilterKind::Port => "port ",
        FilterKind::Vlan => "vlan ",
        FilterKind::Net => "net ",
    }
}
