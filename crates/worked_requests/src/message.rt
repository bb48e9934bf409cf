//! Requests as messages.

use crate::plan::{Mark, Plan};
use crate::store::ValueSigner;
use crate::words::{Asking, read_line};
use forwarding_header::{Destination, Header};
use message_bodies::{Body, Contents, Extension};
use node_messages::make_message;
use reload_base::{Bytes, List, NoMemory};
use reload_ids::{NodeId, ResourceId, overlay_of};
use security_block::{Signer, StandIn};
use std::alloc::Global;

/// The TTL of each request.
const TTL: u8 = 100;

fn header(alloc: Global, plan: &Plan, resource: ResourceId) -> Result<Header, NoMemory> {
    let mut dest = List::new(alloc);
    dest.push(Destination::Resource(resource))?;
    Ok(Header {
        overlay: overlay_of(b"overlay.example"),
        sequence: plan.sequence,
        ttl: TTL,
        length: 0,
        id: plan.id,
        max_response: plan.max_response,
        via: List::new(alloc),
        dest,
        options: List::new(alloc),
    })
}

fn extensions(alloc: Global, plan: &Plan) -> Result<List<Extension>, NoMemory> {
    let mut all = List::new(alloc);
    if let Some(critical) = plan.extension {
        all.push(Extension {
            code: 0x8001,
            critical,
            contents: Bytes::new(alloc),
        })?;
    }
    Ok(all)
}

/// The resource that a body names.
fn named(plan: &Plan, resource: ResourceId) -> ResourceId {
    if plan.misplaced {
        ResourceId(!resource.0)
    } else {
        resource
    }
}

fn body(
    alloc: Global,
    plan: &Plan,
    resource: ResourceId,
    certificate: &[u8],
    asking: Asking,
) -> Result<Body, NoMemory> {
    let named = named(plan, resource);
    match asking {
        Asking::Store(groups) => {
            let signer = ValueSigner {
                certificate: plan.signs_values.then_some(certificate),
                resource,
            };
            Ok(Body::Store {
                resource: named,
                replica_number: plan.replica_number,
                kind_data: signer.kinds(alloc, &groups)?,
            })
        }
        Asking::Fetch(specifiers) => Ok(Body::Fetch {
            resource: named,
            specifiers,
        }),
        Asking::Join => Ok(Body::Join {
            joining_peer_id: NodeId(named.0),
            overlay_specific_data: Bytes::new(alloc),
        }),
    }
}

/// A message whose last byte, which its signature ends with, is another.
fn spoil(message: &mut Bytes) {
    if let Some(byte) = message.pop() {
        let _ = message.push(!byte);
    }
}

/// The message of a request in words, signed by who asks, with a transaction id where no mark says
/// another. `None` where the words say no request, or it has no spelling.
pub(crate) fn made(
    alloc: Global,
    id: u64,
    marks: &[Mark],
    line: &[u8],
) -> Result<Option<Bytes>, NoMemory> {
    let Some((resource, asking)) = read_line(alloc, line)? else {
        return Ok(None);
    };
    let plan = Plan::new(id, marks);
    let about = plan.asker.about(alloc)?;
    let signer = StandIn::new(alloc);
    let certificate = signer.certificate(alloc, &about)?;
    let contents = Contents {
        body: body(alloc, &plan, resource, certificate.as_slice(), asking)?,
        extensions: extensions(alloc, &plan)?,
    };
    let header = header(alloc, &plan, resource)?;
    let mut message = make_message(alloc, &signer, &about, header, &contents)?;
    if plan.spoilt {
        if let Some(bytes) = &mut message {
            spoil(bytes);
        }
    }
    Ok(message)
}
