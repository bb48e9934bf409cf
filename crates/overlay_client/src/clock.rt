//! What a client does when the clock moves on.

ghost use Rattle.std.specs.Prelude.{◌≡◌, ◌<◌, ◌^◌, ◌++◌, List, ℕ, Some, fold, map, IfOk, OnOk, OnErr};
ghost use Rattle.std.specs.List.{cons_option};
ghost use Rattle.std.specs.Option.{option_and_then};
ghost use Rattle.std.specs.FinMap as maps;
ghost use Rattle.transaction_table.specs.Tables.{txn_at};
ghost use Rattle.node_model.specs.declared.notice.Notice.TheVariants.{TimedOut};
ghost use Rattle.node_model.specs.Clocks.{id_over, ids_over};
ghost use Rattle.node_model.specs.Clients as model;

use crate::client::Client;
use node_model::{MAX_LOAD, MAX_SENDS, Notice, Outputs, Question};
use ordered_tables::NumberTable;
use reload_base::{List as Items, NoMemory};
use std::alloc::Global;
use transaction_table::{Spot, Table};

/// Adds the id of the transaction at a spot to others, if it was sent `MAX_SENDS` times.
fn note_over(ids: &mut Items<u64>, table: &Table, spot: Spot) -> Result<(), NoMemory>
    ensures { (rest : List ℕ) → OnOk result (ids.new ++ rest ≡ ids.old
        ++ cons_option (option_and_then (id_over (Some MAX_SENDS)) (txn_at spot table.now)) rest) }
{
    let Some((_, id, sends)) = table.sends(spot) else {
        return Ok(());
    };
    if sends < MAX_SENDS {
        return Ok(());
    }
    ids.push(id)
}

/// The ids of the transactions at some spots that were sent `MAX_SENDS` times.
#[tactic(auto, unfolding(node_model::specs::Clocks::ids_over))]
fn over(alloc: Global, table: &Table, spots: &[Spot]) -> Result<Items<u64>, NoMemory>
    ensures { IfOk result (λ ids. ids ≡ ids_over (Some MAX_SENDS) table.now spots.now) }
{
    let mut ids = Items::new(alloc);
    for spot in spots {
        note_over(&mut ids, table, *spot)?;
    }
    Ok(ids)
}

/// What is told of requests that aren't sent any more.
fn time_outs(alloc: Global, ids: &[u64]) -> Result<Items<Notice>, NoMemory>
    ensures { IfOk result (λ notices. notices ≡ map TimedOut ids.now) }
{
    let mut notices = Items::new(alloc);
    for id in ids {
        notices.push(Notice::TimedOut { id: *id })?;
    }
    Ok(notices)
}

/// Drops the questions of some requests.
fn drop_questions(questions: &mut NumberTable<Question>, ids: &[u64])
    ensures { questions.new ≡ fold maps.remove questions.old ids.now }
{
    for id in ids {
        questions.remove(u128::from(*id));
    }
}

impl Client {
    /// What is due is sent again, or ends where it was sent `MAX_SENDS` times, which is told.
    #[tactic(auto, unfolding(node_model::specs::Clients::clocked))]
    pub(crate) fn clocked(&mut self, alloc: Global, now: u64) -> Result<Outputs, NoMemory>
        requires time { now < 2 ^ 62 }
        requires light { model.load self.old < MAX_LOAD }
        ensures ok { OnOk result (self.new ≡ (model.clocked now self.old).node) }
        ensures outputs { IfOk result (λ o. o ≡ (model.clocked now self.old).outputs) }
        ensures err { OnErr result (self.new ≡ self.old) }
    {
        let due = self.table.due(alloc, now)?;
        let ended = over(alloc, &self.table, due.as_slice())?;
        let notices = time_outs(alloc, ended.as_slice())?;
        let frames = self
            .node
            .resend(alloc, &self.table, due.as_slice(), Some(MAX_SENDS))?;
        self.table.renew(due.as_slice(), now, Some(MAX_SENDS));
        drop_questions(&mut self.questions, ended.as_slice());
        Ok(Outputs { frames, notices })
    }
}
