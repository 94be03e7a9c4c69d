//! Which steps may be sent to a node, and which replies may come back.
ghost use Rattle.std.specs.Prelude.{◌≡◌, None, length};
ghost use Rattle.cbt_model.specs.Bodies.{body_fits_of};
ghost use Rattle.cbt_model.specs.Fitting.{body_fits_maybe, stage_fits, stage_fits_maybe, step_fits, is_above, ids_rise, fits, fits_read_doc, fits_stage, fits_unstage, fits_read_entry, fits_add_entry, fits_decide, fits_drop_entry, fits_read_atr, fits_read_clients, fits_beat};

use crate::documents::{OpKind, Stage};
use crate::steps::{Expect, Reply, Step};
use cbt_base::Id;
use cbt_json::Json;

/// How many ids of cleaners that are gone a beat may name.
const MAX_GONE: usize = 12;

/// Whether a step may be sent to a node: each body and staged content that it carries is a fit
/// body, a staged content is missing exactly for a remove, and a beat names at most 12 ids that are
/// gone.
///
/// It takes no memory.
pub fn step_fits(step: &Step) -> bool
    ensures { result ≡ step_fits step.now }
{
    match step {
        Step::Stage { stage, .. } => stage_fits(stage),
        Step::Publish { body, .. } => body_fits(body),
        Step::Beat { gone, .. } => gone.len() <= MAX_GONE,
        Step::ReadDoc { .. }
        | Step::Delete { .. }
        | Step::Unstick { .. }
        | Step::ReadEntry { .. }
        | Step::AddEntry { .. }
        | Step::Commit { .. }
        | Step::Abort { .. }
        | Step::DropEntry { .. }
        | Step::ReadAtr { .. }
        | Step::ReadClients => true,
    }
}

/// Whether a reply may come back to a step: its kind stands in the step's row of the table or it is
/// `Failed`, each body and staged content in it is a fit body, a staged content is missing exactly
/// for a remove, and the ids of entries and of rows rise.
///
/// It takes no memory.
pub fn fits(step: &Step, reply: &Reply) -> bool
    ensures { result ≡ fits step.now reply.now }
{
    match step {
        Step::ReadDoc { .. } => fits_read_doc(reply),
        Step::Stage { expect, .. } => fits_stage(expect, reply),
        Step::Publish { .. } | Step::Delete { .. } | Step::Unstick { .. } => fits_unstage(reply),
        Step::ReadEntry { .. } => fits_read_entry(reply),
        Step::AddEntry { .. } => fits_add_entry(reply),
        Step::Commit { .. } | Step::Abort { .. } => fits_decide(reply),
        Step::DropEntry { guarded, .. } => fits_drop_entry(*guarded, reply),
        Step::ReadAtr { .. } => fits_read_atr(reply),
        Step::ReadClients => fits_read_clients(reply),
        Step::Beat { .. } => fits_beat(reply),
    }
}

// Whether a value may be a body.
fn body_fits(body: &Json) -> bool
    ensures { result ≡ body_fits_of body.now }
{
    body.body_fits()
}

fn stage_fits(stage: &Stage) -> bool
    ensures { result ≡ stage_fits stage.now }
{
    match (&stage.kind, &stage.content) {
        (OpKind::Remove, None) => true,
        (OpKind::Insert | OpKind::Replace, Some(content)) => body_fits(content),
        (OpKind::Remove, Some(_)) | (OpKind::Insert | OpKind::Replace, None) => false,
    }
}

fn body_fits_maybe(body: &Option<Json>) -> bool
    ensures { result ≡ body_fits_maybe body.now }
{
    match body {
        None => true,
        Some(body) => body_fits(body),
    }
}

fn stage_fits_maybe(stage: &Option<Stage>) -> bool
    ensures { result ≡ stage_fits_maybe stage.now }
{
    match stage {
        None => true,
        Some(stage) => stage_fits(stage),
    }
}

// The ids rise.
fn ids_rise<T>(items: &[(Id, T)]) -> bool
    ensures { result ≡ ids_rise items.now }
{
    let mut low: Option<Id> = None;
    for item in items {
        if !is_above(low, item.0) {
            return false;
        }
        low = Some(item.0);
    }
    true
}

fn is_above(low: Option<Id>, id: Id) -> bool
    ensures { result ≡ is_above low id }
{
    match low {
        None => true,
        Some(low) => low.number() < id.number(),
    }
}

fn fits_read_doc(reply: &Reply) -> bool
    ensures { result ≡ fits_read_doc reply.now }
{
    match reply {
        Reply::Doc { body, stage, .. } => body_fits_maybe(body) && stage_fits_maybe(stage),
        Reply::Absent | Reply::Failed => true,
        _ => false,
    }
}

fn fits_stage(expect: &Expect, reply: &Reply) -> bool
    ensures { result ≡ fits_stage expect.now reply.now }
{
    match expect {
        Expect::New => matches!(reply, Reply::Exists | Reply::Done { .. } | Reply::Failed),
        Expect::Cas(_) => matches!(
            reply,
            Reply::Absent | Reply::CasMismatch { .. } | Reply::Done { .. } | Reply::Failed
        ),
    }
}

fn fits_unstage(reply: &Reply) -> bool
    ensures { result ≡ fits_unstage reply.now }
{
    matches!(
        reply,
        Reply::CasMismatch { .. } | Reply::Done { .. } | Reply::Failed
    )
}

fn fits_read_entry(reply: &Reply) -> bool
    ensures { result ≡ fits_read_entry reply.now }
{
    matches!(reply, Reply::NoEntry | Reply::Entry(_) | Reply::Failed)
}

fn fits_add_entry(reply: &Reply) -> bool
    ensures { result ≡ fits_add_entry reply.now }
{
    matches!(reply, Reply::Exists | Reply::Done { .. } | Reply::Failed)
}

fn fits_decide(reply: &Reply) -> bool
    ensures { result ≡ fits_decide reply.now }
{
    matches!(
        reply,
        Reply::NoEntry | Reply::Decided | Reply::Done { .. } | Reply::Failed
    )
}

fn fits_drop_entry(guarded: bool, reply: &Reply) -> bool
    ensures { result ≡ fits_drop_entry guarded reply.now }
{
    if guarded {
        fits_decide(reply)
    } else {
        matches!(reply, Reply::NoEntry | Reply::Done { .. } | Reply::Failed)
    }
}

fn fits_read_atr(reply: &Reply) -> bool
    ensures { result ≡ fits_read_atr reply.now }
{
    match reply {
        Reply::Entries(entries) => ids_rise(entries.as_slice()),
        Reply::Failed => true,
        _ => false,
    }
}

fn fits_read_clients(reply: &Reply) -> bool
    ensures { result ≡ fits_read_clients reply.now }
{
    match reply {
        Reply::Clients(rows) => ids_rise(rows.as_slice()),
        Reply::Failed => true,
        _ => false,
    }
}

fn fits_beat(reply: &Reply) -> bool
    ensures { result ≡ fits_beat reply.now }
{
    matches!(reply, Reply::Done { .. } | Reply::Failed)
}
