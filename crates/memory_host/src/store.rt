// What a host in memory holds.
ghost use Rattle.std.specs.Prelude.{
  ◌≡◌,
  ◌≢◌,
  ◌∷◌,
  IfErr,
  IfOk,
  IfSome,
  IsTrue,
  None,
  OnErr,
  OnOk,
  Some,
  string_bytes,
};
ghost use Rattle.std.specs.IoError.{error_kind};
ghost use Rattle.shop_host.specs.State.{Path};
ghost use Rattle.shop_host.specs.Paths.{IsIn, behind as behind_folder, in_folder as path_in};
ghost use Rattle.memory_host.specs.Journal.{
  content_in,
  done,
  followed as followed_by,
  kind_in,
  memory_state,
};
ghost use Rattle.memory_host.specs.Paths.{rooted as from_root};

use crate::entries::Entry;
use crate::journal::{Item, entry_at};
use crate::open::Unread;
use crate::paths::{behind, in_folder, rooted, split};
use shop_host::Lock;
use std::alloc::{AllocError, Global};

/// A link: its path from the root on, and the path that it leads to.
#[derive(Drop)]
pub struct Link {
    pub path: String,
    pub to: String,
}

/// A lock that was taken.
#[derive(Drop)]
pub struct Taken {
    pub path: String,
    pub lock: Lock,
}

/// Links, which no call makes or takes away; what was done; the locks that were taken, the newest first; and what
/// standard input still has.
#[derive(Drop)]
pub struct Store {
    pub links: Vec<Link>,
    pub items: Vec<Item>,
    pub locks: Vec<Taken>,
    pub input: Unread,
}

// Where a path from the root on leads by these links.
fn followed<'a>(links: &'a [Link], path: &'a str) -> &'a str
    ensures { result.now ≡ followed_by links.now path.now }
{
    let [link, others @ ..] = links else {
        return path;
    };
    if link.path.as_str() == path {
        link.to.as_str()
    } else {
        followed(others, path)
    }
}

impl Store {
    /// Where a path leads.
    pub fn leads(&self, alloc: Global, path: &str) -> Result<String, AllocError>
        ensures { IfOk result (λ own. string_bytes own ≡ (memory_state self.now).leads path.now) }
    {
        let own = rooted(alloc, path)?;
        rooted(alloc, followed(self.links.as_slice(), own.as_str()))
    }

    /// What stands at a path from the root on.
    pub fn at(&self, alloc: Global, path: &str) -> Result<Option<Entry>, AllocError>
        ensures content { IfOk result (λ found. (memory_state self.now).files path.now ≡ content_in found) }
        ensures kind { IfOk result (λ found. (given : Path) → from_root given ≡ path.now
            → (memory_state self.now).kind given ≡ kind_in found) }
    {
        entry_at(alloc, self.items.as_slice(), path)
    }

    /// Whether a path leads to its name in the folder that it is in.
    pub fn leads_to_its_name(&self, alloc: Global, path: &str) -> Result<bool, AllocError>
        ensures { IfOk result (λ is. IsTrue is → (folder name : Path) → IsIn folder name path.now
            → (memory_state self.now).leads path.now ≡ path_in ((memory_state self.now).leads folder) name) }
    {
        let (folder, name) = split(path);
        let own = self.leads(alloc, path)?;
        let own_folder = self.leads(alloc, folder)?;
        let named = in_folder(alloc, own_folder.as_str(), name)?;
        Ok(own.as_str() == named.as_str())
    }

    /// Whether a path leads where another leads from the folder on that it is in.
    pub fn leads_by(&self, alloc: Global, path: &str, to: &str) -> Result<bool, AllocError>
        ensures { IfOk result (λ is. IsTrue is → (folder name : Path) → IsIn folder name path.now
            → (memory_state self.now).leads path.now ≡ (memory_state self.now).leads (behind_folder folder to.now)) }
    {
        let (folder, _) = split(path);
        let own = self.leads(alloc, path)?;
        let behind = behind(alloc, folder, to)?;
        let there = self.leads(alloc, behind.as_str())?;
        Ok(own.as_str() == there.as_str())
    }

    /// Keeps one more item.
    pub fn keep(&mut self, item: Item) -> Result<(), AllocError>
        ensures done { OnOk result (memory_state self.new
            ≡ done (string_bytes item.path) item.change (memory_state self.old)) }
        ensures failed { OnErr result (memory_state self.new ≡ memory_state self.old) }
    {
        match self.items.push(item) {
            Ok(()) => Ok(()),
            Err(_) => Err(AllocError),
        }
    }

    /// Keeps one more lock.
    pub fn take(&mut self, taken: Taken) -> Result<(), AllocError>
        ensures done { OnOk result (memory_state self.new
            ≡ record (memory_state self.old) {
              locks = (string_bytes taken.path, taken.lock) ∷ (memory_state self.old).locks;
            }) }
        ensures failed { OnErr result (memory_state self.new ≡ memory_state self.old) }
    {
        match self.locks.insert(0, taken) {
            Ok(()) => Ok(()),
            Err(_) => Err(AllocError),
        }
    }
}
