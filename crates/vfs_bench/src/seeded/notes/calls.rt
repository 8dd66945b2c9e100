//! The line of each call, with its arguments.

use super::Notes;
use bitflags::Flags;
use vfs_files::{CStr, CallValue, Context};
use vfs_wire::{ByteValued, SetattrIn};

impl Notes {
    /// Begins the line of a call whose first argument is this node.
    pub fn begin(&mut self, call: &str, ctx: &Context, word: &str, node: u64) {
        self.call_by(call, ctx);
        self.number(word, node);
    }

    // The same of a call whose second argument is a name.
    fn begin_named(&mut self, call: &str, ctx: &Context, word: &str, node: u64, name: CStr<'_>) {
        self.begin(call, ctx, word, node);
        self.name("name", name);
    }

    /// Notes a call with its arguments.
    pub fn note_call(&mut self, asked: &CallValue<'_>) {
        match asked {
            CallValue::Lookup { .. }
            | CallValue::Unlink { .. }
            | CallValue::Rmdir { .. }
            | CallValue::Removexattr { .. }
            | CallValue::Getxattr { .. }
            | CallValue::Setxattr { .. } => self.note_name(asked),
            CallValue::Symlink { .. } | CallValue::Mknod { .. } | CallValue::Mkdir { .. } =>
                self.note_made(asked),
            CallValue::Rename { .. } | CallValue::Link { .. } | CallValue::Create { .. } =>
                self.note_led(asked),
            CallValue::Forget { .. }
            | CallValue::BatchForget { .. }
            | CallValue::Getattr { .. }
            | CallValue::Readlink { .. }
            | CallValue::Statfs { .. }
            | CallValue::Listxattr { .. }
            | CallValue::Access { .. }
            | CallValue::Opendir { .. }
            | CallValue::Syncfs { .. } => self.note_node(asked),
            CallValue::Setattr { .. } | CallValue::Fallocate { .. } => self.note_changed(asked),
            CallValue::Open { .. } | CallValue::Release { .. } | CallValue::Releasedir { .. } =>
                self.note_opened(asked),
            CallValue::Flush { .. } | CallValue::Fsync { .. } | CallValue::Fsyncdir { .. } =>
                self.note_kept(asked),
            CallValue::Lseek { .. } | CallValue::Copyfilerange { .. } => self.note_place(asked),
            CallValue::Init { capable } => {
                self.call("init");
                self.bits("capable", capable.bits());
            }
            CallValue::Getlk => self.call("getlk"),
            CallValue::Setlk => self.call("setlk"),
            CallValue::Setlkw => self.call("setlkw"),
            CallValue::Bmap => self.call("bmap"),
            CallValue::Destroy => self.call("destroy"),
            CallValue::Ioctl => self.call("ioctl"),
            CallValue::Poll => self.call("poll"),
            CallValue::NotifyReply => self.call("notify_reply"),
            CallValue::Tmpfile => self.call("tmpfile"),
        }
        self.end();
    }

    // Notes a call by a node and a name.
    fn note_name(&mut self, asked: &CallValue<'_>) {
        match asked {
            CallValue::Lookup { ctx, parent, name } => {
                self.begin_named("lookup", ctx, "parent", *parent, *name);
            }
            CallValue::Unlink { ctx, parent, name } => {
                self.begin_named("unlink", ctx, "parent", *parent, *name);
            }
            CallValue::Rmdir { ctx, parent, name } => {
                self.begin_named("rmdir", ctx, "parent", *parent, *name);
            }
            CallValue::Removexattr { ctx, inode, name } => {
                self.begin_named("removexattr", ctx, "inode", *inode, *name);
            }
            CallValue::Getxattr {
                ctx,
                inode,
                name,
                size,
            } => {
                self.begin_named("getxattr", ctx, "inode", *inode, *name);
                self.small("size", *size);
            }
            CallValue::Setxattr {
                ctx,
                inode,
                name,
                value,
                flags,
                extra,
            } => {
                self.begin_named("setxattr", ctx, "inode", *inode, *name);
                self.bytes("value", value);
                self.small("flags", *flags);
                self.small("extra", extra.bits());
            }
            _ => {}
        }
    }

    // Notes a call that makes a node, and does not open it.
    fn note_made(&mut self, asked: &CallValue<'_>) {
        match asked {
            CallValue::Symlink {
                ctx,
                linkname,
                parent,
                name,
                ext,
            } => {
                self.call_by("symlink", ctx);
                self.name("linkname", *linkname);
                self.number("parent", *parent);
                self.name("name", *name);
                self.extensions(ext);
            }
            CallValue::Mknod {
                ctx,
                inode,
                name,
                mode,
                rdev,
                umask,
                ext,
            } => {
                self.begin_named("mknod", ctx, "inode", *inode, *name);
                self.small("mode", *mode);
                self.small("rdev", *rdev);
                self.small("umask", *umask);
                self.extensions(ext);
            }
            CallValue::Mkdir {
                ctx,
                parent,
                name,
                mode,
                umask,
                ext,
            } => {
                self.begin_named("mkdir", ctx, "parent", *parent, *name);
                self.small("mode", *mode);
                self.small("umask", *umask);
                self.extensions(ext);
            }
            _ => {}
        }
    }

    // Notes a call that makes a name lead to a node that is there, or to a file that is opened.
    fn note_led(&mut self, asked: &CallValue<'_>) {
        match asked {
            CallValue::Rename {
                ctx,
                olddir,
                oldname,
                newdir,
                newname,
                flags,
            } => {
                self.begin("rename", ctx, "olddir", *olddir);
                self.name("oldname", *oldname);
                self.number("newdir", *newdir);
                self.name("newname", *newname);
                self.small("flags", *flags);
            }
            CallValue::Link {
                ctx,
                inode,
                newparent,
                newname,
            } => {
                self.begin("link", ctx, "inode", *inode);
                self.number("newparent", *newparent);
                self.name("newname", *newname);
            }
            CallValue::Create {
                ctx,
                parent,
                name,
                mode,
                kill_priv,
                flags,
                umask,
                ext,
            } => {
                self.begin_named("create", ctx, "parent", *parent, *name);
                self.small("mode", *mode);
                self.truth("kill_priv", *kill_priv);
                self.small("flags", *flags);
                self.small("umask", *umask);
                self.extensions(ext);
            }
            _ => {}
        }
    }

    // Notes a call of a node or of several, with one number at most.
    fn note_node(&mut self, asked: &CallValue<'_>) {
        match asked {
            CallValue::Forget { ctx, inode, count } => {
                self.begin("forget", ctx, "inode", *inode);
                self.number("count", *count);
            }
            CallValue::BatchForget { ctx, requests } => {
                self.call_by("batch_forget", ctx);
                self.pairs("requests", requests);
            }
            CallValue::Getattr { ctx, inode, handle } => {
                self.begin("getattr", ctx, "inode", *inode);
                self.option("handle", *handle);
            }
            CallValue::Readlink { ctx, inode } => {
                self.begin("readlink", ctx, "inode", *inode);
            }
            CallValue::Statfs { ctx, inode } => {
                self.begin("statfs", ctx, "inode", *inode);
            }
            CallValue::Listxattr { ctx, inode, size } => {
                self.begin("listxattr", ctx, "inode", *inode);
                self.small("size", *size);
            }
            CallValue::Access { ctx, inode, mask } => {
                self.begin("access", ctx, "inode", *inode);
                self.small("mask", *mask);
            }
            CallValue::Opendir { ctx, inode, flags } => {
                self.begin("opendir", ctx, "inode", *inode);
                self.small("flags", *flags);
            }
            CallValue::Syncfs { ctx, inode } => {
                self.begin("syncfs", ctx, "inode", *inode);
            }
            _ => {}
        }
    }

    // Notes a call that changes a node.
    fn note_changed(&mut self, asked: &CallValue<'_>) {
        match asked {
            CallValue::Setattr {
                ctx,
                inode,
                attr,
                handle,
                valid,
            } => {
                let mut record = [0u8; SetattrIn::SIZE];
                attr.put(&mut record);
                self.begin("setattr", ctx, "inode", *inode);
                self.bytes("attr", &record);
                self.option("handle", *handle);
                self.small("valid", valid.bits());
            }
            CallValue::Fallocate {
                ctx,
                inode,
                handle,
                mode,
                offset,
                length,
            } => {
                self.begin("fallocate", ctx, "inode", *inode);
                self.number("handle", *handle);
                self.small("mode", *mode);
                self.number("offset", *offset);
                self.number("length", *length);
            }
            _ => {}
        }
    }

    // Notes a call that opens or releases.
    fn note_opened(&mut self, asked: &CallValue<'_>) {
        match asked {
            CallValue::Open {
                ctx,
                inode,
                kill_priv,
                flags,
            } => {
                self.begin("open", ctx, "inode", *inode);
                self.truth("kill_priv", *kill_priv);
                self.small("flags", *flags);
            }
            CallValue::Release {
                ctx,
                inode,
                flags,
                handle,
                flush,
                flock_release,
                lock_owner,
            } => {
                self.begin("release", ctx, "inode", *inode);
                self.small("flags", *flags);
                self.number("handle", *handle);
                self.truth("flush", *flush);
                self.truth("flock_release", *flock_release);
                self.option("owner", *lock_owner);
            }
            CallValue::Releasedir {
                ctx,
                inode,
                flags,
                handle,
            } => {
                self.begin("releasedir", ctx, "inode", *inode);
                self.small("flags", *flags);
                self.number("handle", *handle);
            }
            _ => {}
        }
    }

    // Notes a call by which what was written is kept.
    fn note_kept(&mut self, asked: &CallValue<'_>) {
        match asked {
            CallValue::Flush {
                ctx,
                inode,
                handle,
                lock_owner,
            } => {
                self.begin("flush", ctx, "inode", *inode);
                self.number("handle", *handle);
                self.number("owner", *lock_owner);
            }
            CallValue::Fsync {
                ctx,
                inode,
                datasync,
                handle,
            } => {
                self.begin("fsync", ctx, "inode", *inode);
                self.truth("datasync", *datasync);
                self.number("handle", *handle);
            }
            CallValue::Fsyncdir {
                ctx,
                inode,
                datasync,
                handle,
            } => {
                self.begin("fsyncdir", ctx, "inode", *inode);
                self.truth("datasync", *datasync);
                self.number("handle", *handle);
            }
            _ => {}
        }
    }

    // Notes a call of places in files.
    fn note_place(&mut self, asked: &CallValue<'_>) {
        match asked {
            CallValue::Lseek {
                ctx,
                inode,
                handle,
                offset,
                whence,
            } => {
                self.begin("lseek", ctx, "inode", *inode);
                self.number("handle", *handle);
                self.number("offset", *offset);
                self.small("whence", *whence);
            }
            CallValue::Copyfilerange {
                ctx,
                inode_in,
                handle_in,
                offset_in,
                inode_out,
                handle_out,
                offset_out,
                len,
                flags,
            } => {
                self.begin("copyfilerange", ctx, "inode_in", *inode_in);
                self.number("handle_in", *handle_in);
                self.number("offset_in", *offset_in);
                self.number("inode_out", *inode_out);
                self.number("handle_out", *handle_out);
                self.number("offset_out", *offset_out);
                self.number("len", *len);
                self.number("flags", *flags);
            }
            _ => {}
        }
    }

    /// Notes a READ.
    pub fn note_read(
        &mut self,
        ctx: &Context,
        inode: u64,
        handle: u64,
        size: u32,
        offset: u64,
        lock_owner: Option<u64>,
        flags: u32,
    ) {
        self.begin_transfer("read", ctx, inode, handle, size, offset);
        self.option("owner", lock_owner);
        self.small("flags", flags);
        self.end();
    }

    /// Notes a READDIR.
    pub fn note_readdir(&mut self, ctx: &Context, inode: u64, handle: u64, size: u32, offset: u64) {
        self.begin_transfer("readdir", ctx, inode, handle, size, offset);
        self.end();
    }

    /// Begins the line of a call that moves `size` bytes from a place on.
    pub fn begin_transfer(
        &mut self,
        call: &str,
        ctx: &Context,
        inode: u64,
        handle: u64,
        size: u32,
        offset: u64,
    ) {
        self.begin(call, ctx, "inode", inode);
        self.number("handle", handle);
        self.small("size", size);
        self.number("offset", offset);
    }

    /// Ends the line of a WRITE.
    pub fn end_write(
        &mut self,
        lock_owner: Option<u64>,
        delayed_write: bool,
        kill_priv: bool,
        flags: u32,
    ) {
        self.option("owner", lock_owner);
        self.truth("delayed_write", delayed_write);
        self.truth("kill_priv", kill_priv);
        self.small("flags", flags);
        self.end();
    }
}
