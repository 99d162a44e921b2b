// Two roles of a job that one file has.
ghost use Rattle.std.specs.Prelude.{◌≡◌, ◌↔◌, None, false, IfSome, IsTrue, option_map};
ghost use Rattle.shop_files.specs.Roles.{AreOneFile, HasClash, IsBelow, clash_line, roles_view};
ghost use Rattle.shop_files.specs.declared.clash.Clash.{Clash as AClash};

use crate::identity::{FileIdentity, is_same_file};
use std::path::Path;

/// The files of a job, by their roles.
#[derive(Clone, Copy)]
pub struct Roles<'a> {
    pub image: FileIdentity<'a>,
    /// The image is changed in its own file.
    pub in_place: bool,
    pub from: FileIdentity<'a>,
    /// The path of the folder whose files are added, with links followed.
    pub folder: Option<&'a str>,
    pub out: FileIdentity<'a>,
    pub certificate: FileIdentity<'a>,
}

/// Two roles that one file has, of which one is written, or an output file in a folder that is read. The image and its
/// output file are no such pair: that is meant.
#[derive(Clone, Copy)]
pub enum Clash {
    OutAndCertificate,
    InPlaceAndCertificate,
    OutAndFrom,
    OutInFrom,
    InPlaceAndFrom,
    ImageAndCertificate,
    FromAndCertificate,
}

impl Clash {
    /// The line that tells it.
    pub fn line(self) -> &'static [u8]
        ensures { result.now ≡ clash_line self }
    {
        match self {
            Clash::OutAndCertificate => b"error: --out and --cert name the same file\n",
            Clash::InPlaceAndCertificate => b"error: --in-place and --cert name the same file\n",
            Clash::OutAndFrom => b"error: --out and --from name the same file\n",
            Clash::OutInFrom => b"error: --out leads into the folder of --from\n",
            Clash::InPlaceAndFrom => b"error: --in-place and --from name the same file\n",
            Clash::ImageAndCertificate => b"error: IMAGE and --cert name the same file\n",
            Clash::FromAndCertificate => b"error: --from and --cert name the same file\n",
        }
    }
}

// Whether a path leads to what is in a folder or in one below it, where both are known, with links followed.
fn is_below(folder: Option<&str>, path: Option<&str>) -> bool
    ensures { IsTrue result
        ↔ IsBelow (option_map (λ s. s.now) folder.entry) (option_map (λ s. s.now) path.entry) }
{
    match (folder, path) {
        (Some(folder), Some(path)) => path != folder && Path::new(path).starts_with(folder),
        _ => false,
    }
}

// The clash of the output file with another role.
fn out_clash(roles: Roles<'_>) -> Option<Clash>
    ensures some { IfSome result (HasClash (roles_view roles.entry)) }
    ensures none { let files = roles_view roles.entry in
        result ≡ None → (¬ AreOneFile files.out files.certificate) × (¬ AreOneFile files.out files.from)
        × (¬ IsBelow files.folder files.out.path) }
{
    if is_same_file(roles.out, roles.certificate) {
        return Some(Clash::OutAndCertificate);
    }
    if is_same_file(roles.out, roles.from) {
        return Some(Clash::OutAndFrom);
    }
    if is_below(roles.folder, roles.out.path) {
        return Some(Clash::OutInFrom);
    }
    None
}

// The clash of the image that is changed in its own file with another role.
fn in_place_clash(roles: Roles<'_>) -> Option<Clash>
    requires { IsTrue roles.in_place }
    ensures some { IfSome result (HasClash (roles_view roles.entry)) }
    ensures none { let files = roles_view roles.entry in
        result ≡ None → (¬ AreOneFile files.image files.certificate) × (¬ AreOneFile files.image files.from) }
{
    if is_same_file(roles.image, roles.certificate) {
        return Some(Clash::InPlaceAndCertificate);
    }
    if is_same_file(roles.image, roles.from) {
        return Some(Clash::InPlaceAndFrom);
    }
    None
}

// The clash of the certificate with a file that is read.
fn certificate_clash(roles: Roles<'_>) -> Option<Clash>
    requires { roles.in_place ≡ false }
    ensures some { IfSome result (HasClash (roles_view roles.entry)) }
    ensures none { let files = roles_view roles.entry in result ≡ None → ¬ AreOneFile files.image files.certificate }
{
    if is_same_file(roles.image, roles.certificate) {
        return Some(Clash::ImageAndCertificate);
    }
    None
}

impl Roles<'_> {
    /// Two roles that one file has, of which one is written, or an output file in a folder that is read; `None` where
    /// there are none.
    pub fn clash(self) -> Option<Clash>
        ensures some { IfSome result (HasClash (roles_view self.entry)) }
        ensures none { result ≡ None ↔ ((clash : AClash) → ¬ HasClash (roles_view self.entry) clash) }
    {
        if is_same_file(self.from, self.certificate) {
            return Some(Clash::FromAndCertificate);
        }
        if let Some(clash) = out_clash(self) {
            return Some(clash);
        }
        if self.in_place {
            in_place_clash(self)
        } else {
            certificate_clash(self)
        }
    }
}
