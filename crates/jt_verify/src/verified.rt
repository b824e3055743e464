//! Verifies images and views, and records in their types that they are in order.
ghost use Rattle.std.specs.Prelude.{◌≡◌, IfOk, IfErr};
ghost use Rattle.jt_image.specs.IsCode.{IsCode};
ghost use Rattle.jt_image.specs.Typed.{IsTyped};
ghost use Rattle.jt_verify.specs.Refusing.{RefusalHolds};

use crate::refusal::Refusal;
use crate::verifier::verify_code;
use jt_image::{Code, Image, View};
use std::alloc::Global;
use std::marker::Model;

/// An image or a view whose code is in order.
#[derive(Drop)]
pub struct Checked<C: Code> {
    inner: C,
}

impl<C: Code> Model for Checked<C> {
    ghost use Rattle.jt_image.specs.Code.{Code as CodeOf};

    ghost Value = { CodeOf };

    ghost use Rattle.jt_image.specs.IsCode.{IsCode};
    ghost use Rattle.jt_image.specs.Typed.{IsTyped};

    ghost view = { λ v. C.code v.inner };

    ghost invariant = { λ v. IsTyped (C.code v.inner) × IsCode (C.code v.inner) };
}

impl<C: Code> Checked<C> {
    /// Returns the verified image or view.
    pub fn code(&self) -> &C
        ensures code { C.code result.now ≡ self.now }
        ensures typed { IsTyped self.now }
        ensures whole { IsCode self.now }
    {
        &self.inner
    }
}

/// An image that is in order.
pub type Verified = Checked<Image>;

impl Checked<Image> {
    /// Returns the verified image.
    pub fn image(&self) -> &Image
        ensures image { result.now ≡ self.now }
        ensures typed { IsTyped self.now }
        ensures whole { IsCode self.now }
    {
        &self.inner
    }
}

/// A view that is in order.
pub type VerifiedView<'a> = Checked<View<'a>>;

// Accepts an image or a view exactly if its code is in order.
fn accept<C: Code>(alloc: Global, code: C) -> Result<Checked<C>, (C, Refusal)>
    ensures ok { IfOk result (λ v. (v ≡ C.code code) × IsTyped (C.code code)) }
    ensures err { IfErr result (λ e. (e.0 ≡ code) × RefusalHolds (C.code code) e.1) }
    ensures exact { IfErr result (λ e. IsTyped (C.code code) → e.1 ≡ Refusal.NoMemory) }
{
    match verify_code(alloc, &code) {
        Ok(()) => Ok(Checked { inner: code }),
        Err(refusal) => Err((code, refusal)),
    }
}

/// Accepts an image exactly if it is in order.
///
/// # Errors
///
/// The image, with a flaw that it has or with `NoMemory` for lack of memory.
pub fn verify(alloc: Global, image: Image) -> Result<Verified, (Image, Refusal)>
    // The accepted image is `image`, and it is typed.
    ensures ok { IfOk result (λ v. (v ≡ image) × IsTyped image) }
    // A refusal returns the image, and holds of it.
    ensures err { IfErr result (λ e. (e.0 ≡ image) × RefusalHolds image e.1) }
    // A typed image is refused only for lack of memory.
    ensures exact { IfErr result (λ e. IsTyped image → e.1 ≡ Refusal.NoMemory) }
{
    accept(alloc, image)
}

/// Accepts a view exactly if its code is in order.
///
/// # Errors
///
/// The view, with a flaw that its code has or with `NoMemory` for lack of memory.
pub fn verify_view<'a>(
    alloc: Global,
    view: View<'a>,
) -> Result<VerifiedView<'a>, (View<'a>, Refusal)>
    // The accepted view is `view`, and its code is typed.
    ensures ok { IfOk result (λ v. (v ≡ view.entry) × IsTyped view.entry) }
    // A refusal returns the view, and holds of it.
    ensures err { IfErr result (λ e. (e.0 ≡ view.entry) × RefusalHolds view.entry e.1) }
    // A view of a typed code is refused only for lack of memory.
    ensures exact { IfErr result (λ e. IsTyped view.entry → e.1 ≡ Refusal.NoMemory) }
{
    accept(alloc, view)
}
