ghost use Rattle.std.specs.Prelude.{◌≡◌, ◌↔◌, ℕ, Some, Err, IfOk, IfErr};
ghost use Rattle.sfx_item.specs.Decided.{name_fault};
ghost use Rattle.sfx_item.specs.declared.name_fault.NameFault.TheVariants.{BadName};
ghost use Rattle.sfx_item.specs.Name.{IsNameFault, IsName};

use crate::NameFault;
use crate::first_wrong::first_wrong;
use sfx_ids::Memory;
use std::alloc::Global;
use std::marker::Model;

/// A name of an item: 1 to 255 bytes of UTF-8, a path of components between `/`. No component is
/// empty, `.` or `..`, and no character is a control character.
#[derive(Drop)]
pub struct Name {
    bytes: Vec<u8>,
}

impl Model for Name {
    ghost use Rattle.std.specs.Prelude.{List, ℕ};
    ghost use Rattle.sfx_item.specs.Name.{IsName};

    ghost Value = { List ℕ };

    ghost view = { λ n. n.bytes.items };

    ghost invariant = { λ n. IsName n.bytes.items };
}

impl Name {
    /// The name of these bytes. `BadName` where they are none, with the least index at which something
    /// is wrong: where a component that is empty, `.` or `..` or a control character begins, where the
    /// longest prefix that is UTF-8 ends, or behind the first 255 bytes.
    pub fn read(alloc: Global, bytes: &[u8]) -> Result<Name, NameFault>
        ensures ok { IfOk result (λ name. IsName bytes.now × (name ≡ bytes.now)) }
        ensures err { IfErr result (λ fault. IsNameFault bytes.now fault) }
        ensures decided { (at : ℕ) → (result ≡ Err (BadName at)) ↔ (name_fault bytes.now ≡ Some at) }
    {
        match first_wrong(bytes) {
            Some(at) => Err(NameFault::BadName(at)),
            None => Ok(Name {
                bytes: Vec::from_slice(alloc, bytes)?,
            }),
        }
    }

    /// The bytes of the name, which are UTF-8.
    pub fn bytes(&self) -> &[u8]
        ensures value { result.now ≡ self.now }
        ensures valid { IsName self.now }
    {
        self.bytes.as_slice()
    }

    /// An equal name. The one error is running out of memory.
    pub fn copy(&self, alloc: Global) -> Result<Self, Memory>
        ensures { IfOk result (λ copy. copy ≡ self.now) }
    {
        Ok(Name {
            bytes: Vec::from_slice(alloc, self.bytes.as_slice())?,
        })
    }
}
