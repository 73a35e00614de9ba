ghost use Rattle.std.specs.Prelude.{◌≡◌, ℕ, ◌≤◌, ◌++◌, ◌∷◌, length, IfOk, IfErr, IfSome};
ghost use Rattle.text_rules.specs.MessageBytes.{copy_bytes, change_bytes, body_bytes, message_bytes, IsCopy, IsChange, IsBody, IsMessage};
ghost use Rattle.text_rules.specs.FieldBytes.{piece};
ghost use Rattle.text_rules.specs.ReadMessage.{copy_field, change_field, request_field, grant_field, release_field, revocation_field, return_field, report_field, body_field, message_field};
ghost use Rattle.messages.specs.Reading.{stop_of, stop_in};

use crate::fields::{Fields, ReadFault, Stopped};
use crate::list::list;
use pcl_base::{
    Body, Change, Config, CopyPart, Grant, Items, Message, Page, Release, Report, Request,
    ReturnRight,
};
use std::alloc::Global;

/// The bytes of a page.
fn image(alloc: Global, fields: &mut Fields, config: &Config) -> Result<Page, ReadFault>
    ensures ok { IfOk result (λ bytes. piece config.now.size fields.old ≡ Ok (bytes, fields.new)) }
    ensures err { IfErr result (λ e. IfSome (stop_in e) (λ s. piece config.now.size fields.old ≡ Err s)) }
    ensures spelt { IfOk result (λ bytes. fields.old ≡ bytes ++ fields.new) }
    ensures len { IfOk result (λ bytes. length bytes ≡ config.now.size) }
{
    let bytes = fields.piece(config.size() as usize)?;
    Ok(Items::of(Vec::from_slice(alloc, bytes)?))
}

/// Where the page of a grant is.
fn copy_part(alloc: Global, fields: &mut Fields, config: &Config) -> Result<CopyPart, ReadFault>
    ensures ok { IfOk result (λ x. copy_field config.now.size fields.old ≡ Ok (x, fields.new)) }
    ensures err { IfErr result (λ e. IfSome (stop_in e) (λ s. copy_field config.now.size fields.old ≡ Err s)) }
    ensures spelt { IfOk result (λ x. fields.old ≡ copy_bytes x ++ fields.new) }
    ensures is_copy { IfOk result (IsCopy config.now.size) }
{
    match fields.byte(1, 3)? {
        1 => Ok(CopyPart::Current),
        2 => Ok(CopyPart::Image(image(alloc, fields, config)?)),
        _ => Ok(CopyPart::OnDisk),
    }
}

/// What a release brings, where a flag says that it brings something.
fn change(alloc: Global, fields: &mut Fields, config: &Config) -> Result<Option<Change>, ReadFault>
    ensures ok { IfOk result (λ x. change_field config.now.size fields.old ≡ Ok (x, fields.new)) }
    ensures err { IfErr result (λ e. IfSome (stop_in e) (λ s. change_field config.now.size fields.old ≡ Err s)) }
    ensures spelt { IfOk result (λ x. fields.old ≡ change_bytes x ++ fields.new) }
    ensures is_change { IfOk result (IsChange config.now.size) }
{
    if fields.flag()? {
        let version = fields.counted64()?;
        let image = image(alloc, fields, config)?;
        return Ok(Some(Change { version, image }));
    }
    Ok(None)
}

/// A lock request.
fn request(fields: &mut Fields, config: &Config) -> Result<Body, Stopped>
    ensures ok { IfOk result (λ x. request_field config.now fields.old ≡ Ok (x, fields.new)) }
    ensures err { IfErr result (λ s. request_field config.now fields.old ≡ Err (stop_of s)) }
    ensures spelt { IfOk result (λ x. 1 ∷ fields.old ≡ body_bytes x ++ fields.new) }
    ensures is_body { IfOk result (IsBody config.now) }
{
    let tx = fields.tx(config)?;
    let page = fields.page(config)?;
    let mode = fields.mode()?;
    let have = fields.version()?;
    Ok(Body::Request(Request {
        tx,
        page,
        mode,
        have,
    }))
}

/// A grant.
fn grant(alloc: Global, fields: &mut Fields, config: &Config) -> Result<Body, ReadFault>
    ensures ok { IfOk result (λ x. grant_field config.now fields.old ≡ Ok (x, fields.new)) }
    ensures err { IfErr result (λ e. IfSome (stop_in e) (λ s. grant_field config.now fields.old ≡ Err s)) }
    ensures spelt { IfOk result (λ x. 2 ∷ fields.old ≡ body_bytes x ++ fields.new) }
    ensures is_body { IfOk result (IsBody config.now) }
{
    let tx = fields.tx(config)?;
    let page = fields.page(config)?;
    let mode = fields.mode()?;
    let right = fields.right(mode)?;
    let version = fields.number64()?;
    let copy = copy_part(alloc, fields, config)?;
    Ok(Body::Grant(Grant {
        tx,
        page,
        mode,
        right,
        version,
        copy,
    }))
}

/// A release.
fn release(alloc: Global, fields: &mut Fields, config: &Config) -> Result<Body, ReadFault>
    ensures ok { IfOk result (λ x. release_field config.now fields.old ≡ Ok (x, fields.new)) }
    ensures err { IfErr result (λ e. IfSome (stop_in e) (λ s. release_field config.now fields.old ≡ Err s)) }
    ensures spelt { IfOk result (λ x. 3 ∷ fields.old ≡ body_bytes x ++ fields.new) }
    ensures is_body { IfOk result (IsBody config.now) }
{
    let tx = fields.tx(config)?;
    let page = fields.page(config)?;
    let change = change(alloc, fields, config)?;
    Ok(Body::Release(Release { tx, page, change }))
}

/// A revocation.
fn revocation(fields: &mut Fields, config: &Config) -> Result<Body, Stopped>
    ensures ok { IfOk result (λ x. revocation_field config.now fields.old ≡ Ok (x, fields.new)) }
    ensures err { IfErr result (λ s. revocation_field config.now fields.old ≡ Err (stop_of s)) }
    ensures spelt { IfOk result (λ x. 4 ∷ fields.old ≡ body_bytes x ++ fields.new) }
    ensures is_body { IfOk result (IsBody config.now) }
{
    let page = fields.page(config)?;
    Ok(Body::Revoke { page })
}

/// The answer to a revocation.
fn returned(alloc: Global, fields: &mut Fields, config: &Config) -> Result<Body, ReadFault>
    ensures ok { IfOk result (λ x. return_field config.now fields.old ≡ Ok (x, fields.new)) }
    ensures err { IfErr result (λ e. IfSome (stop_in e) (λ s. return_field config.now fields.old ≡ Err s)) }
    ensures spelt { IfOk result (λ x. 5 ∷ fields.old ≡ body_bytes x ++ fields.new) }
    ensures is_body { IfOk result (IsBody config.now) }
{
    let page = fields.page(config)?;
    let readers = list(alloc, fields, config, 0)?;
    Ok(Body::Return(ReturnRight { page, readers }))
}

/// A report.
fn report(alloc: Global, fields: &mut Fields, config: &Config) -> Result<Body, ReadFault>
    ensures ok { IfOk result (λ x. report_field config.now fields.old ≡ Ok (x, fields.new)) }
    ensures err { IfErr result (λ e. IfSome (stop_in e) (λ s. report_field config.now fields.old ≡ Err s)) }
    ensures spelt { IfOk result (λ x. 6 ∷ fields.old ≡ body_bytes x ++ fields.new) }
    ensures is_body { IfOk result (IsBody config.now) }
{
    let partition = fields.node(config)?;
    let waits = list(alloc, fields, config, partition)?;
    let locks = list(alloc, fields, config, partition)?;
    let rights = list(alloc, fields, config, partition)?;
    Ok(Body::Report(Report {
        partition,
        waits,
        locks,
        rights,
    }))
}

/// The body of a kind.
fn body(alloc: Global, fields: &mut Fields, config: &Config, kind: u8) -> Result<Body, ReadFault>
    requires { (1 ≤ kind) × (kind ≤ 6) }
    ensures ok { IfOk result (λ x. body_field config.now kind fields.old ≡ Ok (x, fields.new)) }
    ensures err { IfErr result (λ e. IfSome (stop_in e) (λ s. body_field config.now kind fields.old ≡ Err s)) }
    ensures spelt { IfOk result (λ x. kind ∷ fields.old ≡ body_bytes x ++ fields.new) }
    ensures is_body { IfOk result (IsBody config.now) }
{
    match kind {
        1 => Ok(request(fields, config)?),
        2 => grant(alloc, fields, config),
        3 => release(alloc, fields, config),
        4 => Ok(revocation(fields, config)?),
        5 => returned(alloc, fields, config),
        _ => report(alloc, fields, config),
    }
}

/// A message, with what is left behind it.
pub fn message(alloc: Global, fields: &mut Fields, config: &Config) -> Result<Message, ReadFault>
    ensures ok { IfOk result (λ m. message_field config.now fields.old ≡ Ok (m, fields.new)) }
    ensures err { IfErr result (λ e. IfSome (stop_in e) (λ s. message_field config.now fields.old ≡ Err s)) }
    ensures spelt { IfOk result (λ m. fields.old ≡ message_bytes m ++ fields.new) }
    ensures is_message { IfOk result (IsMessage config.now) }
{
    let epoch = fields.counted32()?;
    let kind = fields.kind()?;
    let body = body(alloc, fields, config, kind)?;
    Ok(Message { epoch, body })
}
