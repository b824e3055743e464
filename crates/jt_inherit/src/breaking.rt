//! Finds the tags that break a rule on the blocks, macros and imports of a chain or library.

ghost use Rattle.std.specs.Prelude.{◌≡◌, ◌<◌, ◌≤◌, true, false, length, IfOk, MatchOption};
ghost use Rattle.jt_chains.specs.Along.{templates_at};
ghost use Rattle.jt_chains.specs.Chain.{Template};
ghost use Rattle.jt_chains.specs.View.{its_sources, its_templates};
ghost use Rattle.jt_chains.specs.Rules as rules;
ghost use Rattle.jt_inherit.specs.Findings.{binds_macro, defines, is_block, uses_in};
ghost use Rattle.jt_inherit.specs.internal.Breaking.{IsOfRule, IsTwiceIn, lacks};
ghost use Rattle.jt_inherit.specs.internal.RuleTests.{named, their_blocks};
ghost use Rattle.jt_inherit.specs.internal.Tags.{IsLastCall, lacks_call, tag_count, tag_view, tags};
ghost use Rattle.jt_inherit.specs.internal.Tags.{tags_view, with_name};
ghost use Rattle.jt_uses.specs.UseView.{sites_view};

use crate::error::ChainError;
use crate::finding::{ChainFinding, ChainSubject};
use crate::importing::MissingMacro;
use crate::tags::{FoundTag, Wanted, tags_among, tags_at, two_places};
use jt_names::ChainFacts;
use jt_uses::UseSite;
use std::alloc::{AllocError, Global};

/// Returns the finding of an imported macro that its library does not offer.
pub(crate) fn missing_finding(
    alloc: Global,
    facts: &ChainFacts<'_>,
    indices: &[usize],
    missing: MissingMacro<'_>,
) -> Result<ChainFinding, AllocError>
    requires lacking { lacks (its_sources facts.now.chain.now) missing.library.now
        missing.name.now ≡ true }
    requires imported { 0 < tag_count (binds_macro missing.library.now missing.name.now)
        (templates_at (its_templates facts.now.chain.now) indices.now) }
    ensures { IfOk result (IsOfRule (its_sources facts.now.chain.now)
        (templates_at (its_templates facts.now.chain.now) indices.now) ChainError.NoMacro) }
{
    let wanted = Wanted::BindsMacro {
        library: missing.library,
        name: missing.name,
    };
    let tags = tags_at(alloc, facts, indices, wanted)?;
    let tag = tags[0];
    let place = tag.place(alloc)?;
    let library = String::from_str(alloc, missing.library)?;
    let name = String::from_str(alloc, missing.name)?;
    Ok(ChainFinding {
        error: ChainError::NoMacro,
        place: Some(place),
        subject: Some(ChainSubject::Macro { library, name }),
    })
}

/// Returns the finding of a name that two tags define.
pub(crate) fn name_twice(
    alloc: Global,
    facts: &ChainFacts<'_>,
    indices: &[usize],
    name: &str,
) -> Result<ChainFinding, AllocError>
    requires twice { 2 ≤ tag_count (defines name.now)
        (templates_at (its_templates facts.now.chain.now) indices.now) }
    ensures { IfOk result (IsOfRule (its_sources facts.now.chain.now)
        (templates_at (its_templates facts.now.chain.now) indices.now) ChainError.MacroTwice) }
{
    let tags = tags_at(alloc, facts, indices, Wanted::Defines(name))?;
    let places = two_places(alloc, &tags)?;
    let name = String::from_str(alloc, name)?;
    Ok(ChainFinding {
        error: ChainError::MacroTwice,
        place: Some(places.1),
        subject: Some(ChainSubject::NameTwice {
            name,
            first: places.0,
        }),
    })
}

/// Returns the finding of a name that two blocks of a template have, from the uses of the template.
pub(crate) fn block_twice(
    alloc: Global,
    template: &str,
    uses: &[UseSite<'_>],
    name: &str,
) -> Result<ChainFinding, AllocError>
    requires twice { 2 ≤ length (tags (is_block name.now)
        (with_name template.now (sites_view uses.now))) }
    ensures { IfOk result (λ f. (t : Template)
        → with_name template.now (sites_view uses.now) ≡ uses_in t → IsTwiceIn t f) }
{
    let tags = tags_among(alloc, template, uses, Wanted::Block(name))?;
    let places = two_places(alloc, &tags)?;
    let name = String::from_str(alloc, name)?;
    Ok(ChainFinding {
        error: ChainError::DoubleBlock,
        place: Some(places.1),
        subject: Some(ChainSubject::BlockTwice {
            name,
            first: places.0,
        }),
    })
}

/// Returns the finding of a block whose nearest body is a required one.
pub(crate) fn not_given(
    alloc: Global,
    facts: &ChainFacts<'_>,
    indices: &[usize],
    name: &str,
) -> Result<ChainFinding, AllocError>
    requires required { rules.is_required (named name.now
        (their_blocks facts.now.chain.now.autoescape
        (templates_at (its_templates facts.now.chain.now) indices.now))) ≡ true }
    ensures { IfOk result (IsOfRule (its_sources facts.now.chain.now)
        (templates_at (its_templates facts.now.chain.now) indices.now)
        ChainError.RequiredNotGiven) }
{
    let named = tags_at(alloc, facts, indices, Wanted::Block(name))?;
    let nearest = named[0];
    let place = nearest.place(alloc)?;
    let name = String::from_str(alloc, name)?;
    Ok(ChainFinding {
        error: ChainError::RequiredNotGiven,
        place: Some(place),
        subject: Some(ChainSubject::Block(name)),
    })
}

/// A block whose body calls `super()`, and the line of the tag that calls it.
#[derive(Clone, Copy)]
struct SuperCall<'a> {
    block: FoundTag<'a>,
    line: u32,
}

/// Returns the last of the blocks that calls `super()`, if each block after it is required.
fn last_call(mut blocks: Vec<FoundTag<'_>>) -> Option<SuperCall<'_>>
    ensures { MatchOption result (lacks_call (tags_view blocks.entry.items) ≡ false)
        (λ call. IsLastCall (tags_view blocks.entry.items) (tag_view call.block) call.line) }
{
    while let Some(block) = blocks.pop() {
        if let Some(line) = block.super_line() {
            return Some(SuperCall { block, line });
        }
        if !block.is_required() {
            return None;
        }
    }
    None
}

/// Returns the finding of a block that calls `super()` and has no next body.
pub(crate) fn no_super(
    alloc: Global,
    facts: &ChainFacts<'_>,
    indices: &[usize],
    name: &str,
) -> Result<ChainFinding, AllocError>
    requires lacking { rules.lacks_super (named name.now
        (their_blocks facts.now.chain.now.autoescape
        (templates_at (its_templates facts.now.chain.now) indices.now))) ≡ true }
    ensures { IfOk result (IsOfRule (its_sources facts.now.chain.now)
        (templates_at (its_templates facts.now.chain.now) indices.now) ChainError.NoSuper) }
{
    let named = tags_at(alloc, facts, indices, Wanted::Block(name))?;
    let Some(call) = last_call(named) else {
        return Ok(ChainFinding::without_place(ChainError::NoSuper));
    };
    let place = call.block.place_on(alloc, call.line)?;
    let opened = call.block.place(alloc)?;
    let block = String::from_str(alloc, name)?;
    Ok(ChainFinding {
        error: ChainError::NoSuper,
        place: Some(place),
        subject: Some(ChainSubject::Super { block, opened }),
    })
}
