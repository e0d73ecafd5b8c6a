//! Filters: which packets they match.

ghost use Rattle.std.specs.Prelude.{◌≡◌, ◌≤◌, ◌⊎◌, ◌++◌, [], ◌∷◌, is_none, length, IfErr, IfOk, OnOk};
ghost use Rattle.ep_lax.specs.LaxPackets.{lax_layers_of};
ghost use Rattle.filter_language.specs.Printing.{canonical, printed};
ghost use Rattle.filter_language.specs.Refusals.{IsFilterText, RefusesText};
ghost use Rattle.filter_language.specs.Trees.{both_of, tree_of};
ghost use Rattle.filter_language.specs.declared.step.Step.TheVariants as step;
ghost use Rattle.filter_tokens.specs.declared.filter_error.FilterErrorKind.{FilterErrorKind};
ghost use Rattle.packet_filter.specs.Meaning.{meaning};
ghost use Rattle.packet_filter.specs.Packets.{packet_of, reassembled_packet};
ghost use Rattle.packet_filter.specs.Shown.{shown_packet};

use crate::host_set::HostSet;
use crate::host_sets::{host_sets, later_sets};
use crate::matching::matches_primitive;
use crate::step::{Step, later_steps, steps_if_true};
use crate::subject::Subject;
use ep_base::{IpNumber, LaxIpPayloadSlice, LenSource};
use ep_lax::LaxSlicedPacket;
use filter_language::canonical::append_canonical;
use filter_language::parser;
use filter_language::printing::append_expression;
use filter_tokens::filter_error::{FilterError, FilterErrorKind};
use std::alloc::{AllocError, Global};
use std::marker::Model;
use std::{fmt, str};

/// Filter of packets: an expression such as `tcp port 443 and not host 192.0.2.1`. The empty filter matches every
/// packet.
#[derive(Drop)]
pub struct Filter {
    /// Steps of the filter.
    steps: Vec<Step>,
    /// Sets of hosts in the steps, in order.
    sets: Vec<HostSet>,
}

impl Model for Filter {
    ghost use Rattle.std.specs.Prelude.{◌≡◌, List};
    ghost use Rattle.std.specs.List.{All};
    ghost use Rattle.filter_language.specs.Trees.{steps_of_text, tree_of};
    ghost use Rattle.filter_language.specs.declared.step.Step.{Step};
    ghost use Rattle.packet_filter.specs.HostSets.{HasHostSet};

    ghost Value = { List Step };

    ghost view = { λ filter. filter.steps.items };

    ghost invariant = { λ filter. (filter.steps.items ≡ steps_of_text (tree_of filter.steps.items))
        × All (HasHostSet filter.steps.items) filter.sets.items };
}

impl Filter {
    /// Parses a filter expression. The empty text is the filter that matches every packet.
    ///
    /// # Errors
    ///
    /// Returns an error for the first token that is not allowed after the tokens before it; at the end of the text if it
    /// ends too early, or if an allocation fails; and for a text of more than 65,536 bytes.
    pub fn parse(alloc: Global, text: &str) -> Result<Filter, FilterError>
        ensures ok { IfOk result (λ filter. IsFilterText text.now (tree_of filter)) }
        ensures err { IfErr result (λ error. (error.kind ≡ FilterErrorKind.Memory) ⊎ RefusesText text.now error) }
        ensures place { IfErr result (λ error. (error.start ≤ error.end) × (error.end ≤ length text.now)) }
    {
        match parser::parse(alloc, text.as_bytes()) {
            Ok(steps) => match host_sets(alloc, steps.as_slice()) {
                Ok(sets) => Ok(Filter { steps, sets }),
                Err(_) => Err(FilterError {
                    kind: FilterErrorKind::Memory,
                    start: text.len(),
                    end: text.len(),
                }),
            },
            Err(error) => Err(error),
        }
    }

    /// Combines two filters into the filter that matches what both of them match.
    ///
    /// # Errors
    ///
    /// Returns an error if the allocation fails.
    pub fn both(self, other: Filter) -> Result<Filter, AllocError>
        ensures { IfOk result (λ filter. tree_of filter ≡ both_of (tree_of self) (tree_of other)) }
    {
        if other.is_empty() {
            return Ok(self);
        }
        if self.is_empty() {
            return Ok(other);
        }
        let alloc = *self.steps.allocator();
        let steps = steps_of_both(self.steps, other.steps)?;
        let sets = host_sets(alloc, steps.as_slice())?;
        Ok(Filter { steps, sets })
    }

    /// Returns true if the filter is the empty one, which matches every packet.
    pub fn is_empty(&self) -> bool
        ensures { result ≡ is_none (tree_of self.now) }
    {
        self.steps.is_empty()
    }

    /// Appends the expression of the filter: each primitive with its qualifiers, and no redundant parentheses. Of a
    /// parsed filter, parsing this text gives the same filter, unless the text has more than 65,536 bytes.
    pub fn append_text(&self, output: &mut Vec<u8>) -> Result<(), AllocError>
        ensures { OnOk result (output.new.items ≡ output.old.items ++ printed (tree_of self.now)) }
    {
        append_expression(output, self.steps.as_slice())
    }

    /// Appends the canonical form of the filter's expression: each primitive with its qualifiers, and each `and`, `or`
    /// and `not` in parentheses. The text can have too many levels, or too many bytes, to be parsed.
    pub fn append_canonical(&self, output: &mut Vec<u8>) -> Result<(), AllocError>
        ensures { OnOk result (output.new.items ≡ output.old.items ++ canonical (tree_of self.now)) }
    {
        append_canonical(output, self.steps.as_slice())
    }

    /// Steps of the filter, in order.
    pub fn steps(&self) -> &[Step]
        ensures { result.now ≡ self.now }
    {
        self.steps.as_slice()
    }

    /// Returns true if the filter matches a packet. `bytes` are the bytes that the packet was read from, and `wire_len`
    /// its original length in bytes: that of `bytes`, unless they are truncated. A packet whose bytes were rejected is
    /// matched as `LaxSlicedPacket::new()`, which has no layers.
    pub fn matches(&self, packet: &LaxSlicedPacket<'_>, bytes: &[u8], wire_len: u32) -> bool
        ensures { result ≡ meaning (tree_of self.now) (packet_of (lax_layers_of packet.now) bytes.now wire_len) }
    {
        self.matches_subject(&Subject::of_packet(packet, bytes, wire_len))
    }

    /// Returns true if the filter matches a packet whose IP payload was reassembled from fragments. Ports and bytes of
    /// the transport layer are those of `payload`, which has the IP number `number`; all other fields those of `packet`.
    pub fn matches_payload(
        &self,
        packet: &LaxSlicedPacket<'_>,
        bytes: &[u8],
        wire_len: u32,
        number: IpNumber,
        payload: &[u8],
    ) -> bool
        ensures { result ≡ meaning (tree_of self.now)
            (reassembled_packet (lax_layers_of packet.now) bytes.now wire_len number.0 payload.now) }
    {
        let payload = LaxIpPayloadSlice {
            incomplete: false,
            ip_number: number,
            fragmented: false,
            len_source: LenSource::Slice,
            payload,
        };
        self.matches_subject(&Subject::of_reassembled(packet, bytes, wire_len, &payload))
    }

    /// Returns true if the filter matches a packet.
    #[tactic(auto, using(crate::proofs::StepLemmas::skips))]
    fn matches_subject(&self, subject: &Subject<'_, '_>) -> bool
        ensures { result ≡ meaning (tree_of self.now) (shown_packet subject.now) }
    {
        let mut steps = self.steps.as_slice();
        let mut sets = self.sets.as_slice();
        let mut holds = true;
        while let [step, others @ ..] = steps {
            match step {
                Step::Test(primitive) => {
                    holds = matches_primitive(primitive, subject);
                    steps = others;
                }
                Step::Negate => {
                    holds = !holds;
                    steps = others;
                }
                Step::SkipIfFalse(skipped) => {
                    steps = if holds {
                        others
                    } else {
                        later_steps(others, *skipped)
                    };
                }
                Step::SkipIfTrue(skipped) => {
                    sets = later_sets(sets, steps.len());
                    match sets {
                        [set, ..] if set.left == steps.len() => {
                            holds = set.or_matches(holds, subject);
                            steps = later_steps(steps, set.len);
                        }
                        _ if holds => steps = steps_if_true(others, *skipped),
                        _ => steps = others,
                    }
                }
            }
        }
        holds
    }
}

/// Returns the steps of a filter, a step that skips `others` if they do not decide, and `others`, the steps of another
/// filter.
fn steps_of_both(mut steps: Vec<Step>, others: Vec<Step>) -> Result<Vec<Step>, AllocError>
    ensures { IfOk result
        (λ made. made.items ≡ (steps.items ++ step.SkipIfFalse (length others.items) ∷ []) ++ others.items) }
{
    steps.push(Step::SkipIfFalse(others.len()))?;
    steps.extend_from_slice(others.as_slice())?;
    Ok(steps)
}

impl fmt::Display for Filter {
    /// Writes the expression of the filter, as `append_text` appends it. Returns an error if an allocation fails.
    fn fmt<W: fmt::Write>(&self, f: &mut fmt::Formatter<W>) -> fmt::Result {
        let mut text = Vec::new(*self.steps.allocator());
        if self.append_text(&mut text).is_err() {
            return Err(fmt::Error);
        }
        match str::from_utf8(text.as_slice()) {
            Ok(text) => f.write_str(text),
            Err(_) => Err(fmt::Error),
        }
    }
}
