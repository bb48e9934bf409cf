//! Answers that a peer hears.

ghost use Rattle.std.specs.Prelude.{◌≡◌, ◌+◌, ◌≤◌, ℕ, length, IfOk};
ghost use Rattle.wire_core.specs.declared.limits.TheConstants.{MAX_MESSAGE};
ghost use Rattle.forwarding_header.specs.Header.{header, IsSpelledHeader, IsHeaderInRange};
ghost use Rattle.node_messages.specs.Signed.{words_of};
ghost use Rattle.node_model.specs.Nodes.{me};
ghost use Rattle.node_model.specs.Ways as ways;
ghost use Rattle.node_model.specs.Peers as model;
ghost use Rattle.message_courses.specs.Seen.{seen};
ghost use Rattle.overlay_peer.specs.Plans.{planned, IsPlan};

use crate::peer::Peer;
use crate::plan::Plan;
use message_courses::{Envelope, answer_course};
use node_links::Sending;
use node_model::AnswerCourse;
use reload_base::NoMemory;
use reload_ids::NodeId;
use security_block::Signer;
use std::alloc::Global;

impl Peer {
    /// An answer goes on along its destination list, or may end what the peer itself sent.
    pub(crate) fn plan_answer<'a, G: Signer>(
        &self,
        alloc: Global,
        signer: &G,
        from: NodeId,
        e: Envelope<'a>,
    ) -> Result<Plan<'a>, NoMemory>
        requires is_spelled { IsSpelledHeader e.header }
        requires in_range { IsHeaderInRange e.header }
        requires within { length (header e.header) + length e.behind.now ≤ MAX_MESSAGE }
        ensures exact { let words = words_of G.certificate_of G.signature_of G.about_of G.verifies
            signer.now
            in (now : ℕ) → IfOk result (λ plan. planned words self.now now from plan
            ≡ model.by_answer_course words self.now now from (seen e.entry)
            (ways.answer_course (me self.now.node) e.entry.header)) }
        ensures fits { IfOk result (IsPlan self.now from) }
    {
        let course = answer_course(alloc, self.node.me(), &e.header)?;
        match course {
            AnswerCourse::Passed { next, header } => Ok(Plan::Send(Some(Sending::Onward {
                to: next,
                header,
                behind: e.behind,
            }))),
            AnswerCourse::Mine => self.plan_own(alloc, signer, from, &e),
            AnswerCourse::Ignored => Ok(Plan::Send(None)),
        }
    }
}
