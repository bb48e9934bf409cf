//! Requests that a peer hears.

ghost use Rattle.std.specs.Prelude.{◌≡◌, ◌+◌, ◌≤◌, ℕ, None, length, IfOk};
ghost use Rattle.std.specs.Option.{option_copied};
ghost use Rattle.wire_core.specs.declared.limits.TheConstants.{MAX_MESSAGE};
ghost use Rattle.forwarding_header.specs.Header.{header, IsSpelledHeader, IsHeaderInRange};
ghost use Rattle.forwarding_header.specs.Destinations.{destinations};
ghost use Rattle.node_messages.specs.Behind.{message_of};
ghost use Rattle.node_messages.specs.Signed.{words_of};
ghost use Rattle.node_model.specs.declared.limits.TheConstants.{MAX_VIA};
ghost use Rattle.node_model.specs.Courses as courses;
ghost use Rattle.node_model.specs.Peers as model;
ghost use Rattle.message_courses.specs.Seen.{seen};
ghost use Rattle.message_courses.specs.Fits.{IsForwardedOn};
ghost use Rattle.message_askings.specs.Spelled.{IsSpelledBehind};
ghost use Rattle.overlay_peer.specs.Plans.{planned, IsPlan, IsSized};

use crate::peer::Peer;
use crate::plan::{Plan, Question};
use crate::reply::reply;
use forwarding_header::{DESTINATION_CRITICAL, Header};
use message_askings::{asked_in, is_decided, origin_of, read_request, refusal_body, refusal_of};
use message_courses::{Envelope, any_has, course, reply_header};
use node_links::Sending;
use node_messages::Behind;
use node_model::Course;
use reload_base::NoMemory;
use reload_ids::{NodeId, ResourceId};
use security_block::Signer;
use std::alloc::Global;
use storage_model::Refusal;

impl Peer {
    /// A request is refused.
    #[tactic(auto, unfolding(node_model::specs::Replies::reply))]
    fn refuse<'a, G: Signer>(
        &self,
        alloc: Global,
        signer: &G,
        from: NodeId,
        header: &Header,
        cause: Refusal,
    ) -> Result<Plan<'a>, NoMemory>
        ensures exact { let words = words_of G.certificate_of G.signature_of G.about_of G.verifies
            signer.now
            in (now : ℕ) → IfOk result (λ plan. planned words self.now now from plan
            ≡ model.refuses words self.now from header.now cause) }
        ensures fits { IfOk result (IsPlan self.now from) }
    {
        let reply_to = reply_header(alloc, from, header)?;
        let body = refusal_body(alloc, cause);
        let sending = reply(alloc, signer, self.node.about(), from, reply_to, body)?;
        Ok(Plan::Send(Some(sending)))
    }

    /// The question that is asked of the owner of a resource.
    #[tactic(auto, unfolding(node_model::specs::Peers::decides, node_model::specs::Replies::reply, crate::specs::Plans::decided_on))]
    fn ask<'a, G: Signer>(
        &self,
        alloc: Global,
        signer: &G,
        from: NodeId,
        resource: ResourceId,
        header: &Header,
        behind: Behind,
    ) -> Result<Plan<'a>, NoMemory>
        requires { IsSpelledBehind behind }
        ensures exact { let words = words_of G.certificate_of G.signature_of G.about_of G.verifies
            signer.now
            in (now code : ℕ) → IfOk result (λ plan. planned words self.now now from plan
            ≡ model.decides words self.now now from header.now resource
            (message_of header.now code behind)) }
        ensures fits { IfOk result (IsPlan self.now from) }
    {
        let origin = origin_of(&behind);
        let request = asked_in(alloc, self.node.config(), signer, resource, header, behind)?;
        let reply = reply_header(alloc, from, header)?;
        Ok(Plan::Decide(Question {
            resource,
            origin,
            id: header.id,
            request,
            reply,
        }))
    }

    /// A request that the peer handles, for itself or for a resource that it owns.
    #[tactic(auto, unfolding(node_model::specs::Peers::handled, node_model::specs::Heard::message_in))]
    fn plan_handled<'a, G: Signer>(
        &self,
        alloc: Global,
        signer: &G,
        from: NodeId,
        resource: Option<ResourceId>,
        e: &Envelope<'_>,
    ) -> Result<Plan<'a>, NoMemory>
        ensures exact { let words = words_of G.certificate_of G.signature_of G.about_of G.verifies
            signer.now
            in (now : ℕ) → IfOk result (λ plan. planned words self.now now from plan
            ≡ model.handled words self.now now from resource (seen e.now)) }
        ensures fits { IfOk result (IsPlan self.now from) }
    {
        if any_has(DESTINATION_CRITICAL, &e.header) {
            let cause = Refusal::UnsupportedForwardingOption;
            return self.refuse(alloc, signer, from, &e.header, cause);
        }
        let behind = read_request(
            alloc,
            self.node.config(),
            signer,
            &e.header,
            e.code,
            e.behind,
        )?;
        match resource {
            Some(resource) if is_decided(e.code) => {
                self.ask(alloc, signer, from, resource, &e.header, behind)
            }
            _ => self.refuse(alloc, signer, from, &e.header, refusal_of(&behind)),
        }
    }

    /// What becomes of a request by its course.
    fn plan_course<'a, G: Signer>(
        &self,
        alloc: Global,
        signer: &G,
        from: NodeId,
        course: Course,
        e: Envelope<'a>,
    ) -> Result<Plan<'a>, NoMemory>
        requires fits { IsForwardedOn (length (header e.header) + length e.behind.now) e.header
            course }
        ensures exact { let words = words_of G.certificate_of G.signature_of G.about_of G.verifies
            signer.now
            in (now : ℕ) → IfOk result (λ plan. planned words self.now now from plan
            ≡ model.by_course words self.now now from (seen e.entry) course) }
        ensures fits { IfOk result (IsPlan self.now from) }
    {
        match course {
            Course::Dropped => Ok(Plan::Send(None)),
            Course::Refused(cause) => self.refuse(alloc, signer, from, &e.header, cause),
            Course::Here => self.plan_handled(alloc, signer, from, None, &e),
            Course::Owned(resource) => {
                self.plan_handled(alloc, signer, from, Some(resource), &e)
            }
            Course::Forwarded { next, header } => Ok(Plan::Send(Some(Sending::Onward {
                to: next,
                header,
                behind: e.behind,
            }))),
        }
    }

    /// A request of so many bytes goes its course.
    pub(crate) fn plan_request<'a, G: Signer>(
        &self,
        alloc: Global,
        signer: &G,
        from: NodeId,
        size: u64,
        e: Envelope<'a>,
    ) -> Result<Plan<'a>, NoMemory>
        requires { IsSized size (seen e) }
        ensures exact { let words = words_of G.certificate_of G.signature_of G.about_of G.verifies
            signer.now
            in (now : ℕ) → IfOk result (λ plan. planned words self.now now from plan
            ≡ model.by_course words self.now now from (seen e.entry) (courses.course from
            self.now.tables (model.state_of self.now.membership) size e.entry.header)) }
        ensures fits { IfOk result (IsPlan self.now from) }
    {
        let course = course(alloc, from, &self.tables, self.state(), size, &e.header)?;
        self.plan_course(alloc, signer, from, course, e)
    }
}
