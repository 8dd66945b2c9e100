//! What a request may carry beside its record and its names.

ghost use Rattle.std.specs.Prelude.{◌≡◌, IfOk, IfErr, Some, None};
ghost use Rattle.vfs_files.specs.Calls.{out_of_memory};

use crate::memory::copy_of;
use crate::name::CString;
use std::alloc::Global;
use vfs_flags::{Fault, GuestGid};

/// The security context that a new node is to have (`struct fuse_secctx` and what follows it).
#[derive(Drop, Debug)]
pub struct SecContext {
    /// The name of the extended attribute that holds the context, as `security.selinux`.
    pub name: CString,
    /// The context: the value of that attribute.
    pub secctx: Vec<u8>,
}

impl SecContext {
    ghost use Rattle.vfs_files.specs.Values.{context_values};

    /// An equal context, in memory of its own, or the fault ENOMEM where there is none.
    pub fn clone(&self, alloc: Global) -> Result<SecContext, Fault>
        ensures same { IfOk result (λ copy. context_values copy ≡ context_values self.now) }
        ensures memory { IfErr result (λ fault. fault ≡ out_of_memory) }
    {
        let name = CString::new(alloc, self.name.as_c_str())?;
        let secctx = copy_of(alloc, &self.secctx)?;
        Ok(SecContext { name, secctx })
    }
}

/// The extensions of a request that makes a node (SYMLINK, MKNOD, MKDIR, CREATE): each is there
/// where the kernel sent it, which it does only where both sides agreed on it by INIT.
#[derive(Drop, Debug)]
pub struct Extensions {
    /// The security context of the new node (agreed by `SECURITY_CTX`).
    pub secctx: Option<SecContext>,
    /// A group of the caller, beside that of the header, which the new node may get (agreed by
    /// `CREATE_SUPP_GROUP`).
    pub sup_gid: Option<GuestGid>,
}

impl Extensions {
    ghost use Rattle.vfs_files.specs.Values.{extension_values_of};
    /// No extension.
    pub fn none() -> Extensions
        ensures { extension_values_of result ≡ record { context = None; group = None } }
    {
        Extensions {
            secctx: None,
            sup_gid: None,
        }
    }

    /// Equal extensions, in memory of their own, or the fault ENOMEM where there is none.
    pub fn clone(&self, alloc: Global) -> Result<Extensions, Fault>
        ensures same { IfOk result (λ copy.
            extension_values_of copy ≡ extension_values_of self.now) }
        ensures memory { IfErr result (λ fault. fault ≡ out_of_memory) }
    {
        let secctx = match &self.secctx {
            Some(context) => Some(context.clone(alloc)?),
            None => None,
        };
        Ok(Extensions {
            secctx,
            sup_gid: self.sup_gid,
        })
    }
}
