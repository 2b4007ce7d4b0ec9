ghost use Rattle.std.specs.Prelude.{◌≡◌, ◌<◌, ◌≤◌, [], ◌∷◌, length, IfOk};
ghost use Rattle.std.specs.List.{All};
ghost use Rattle.version_store.specs.declared.notice.Notice.TheVariants.{Put};
ghost use Rattle.version_store.specs.Books.{Opens};

use crate::deployer::Deployer;
use crate::reader::VersionReader;
use edge_base::Memory;
use ruleset_model::Config;
use std::alloc::Global;
use std::sync::Wait;

/// A store of versions.
pub struct Versions;

fn readers_of(
    alloc: Global,
    deployer: &mut Deployer,
    count: u32,
) -> Result<Vec<VersionReader>, Memory>
    ensures stays { deployer.new ≡ deployer.old }
    ensures count { IfOk result (λ readers. length readers.items ≡ count) }
    ensures opens { IfOk result (λ readers. All (Opens deployer.old) readers.items) }
{
    let mut readers = Vec::new(alloc);
    for _ in 0..count {
        let reader = deployer.reader()?;
        readers.push(reader)?;
    }
    Ok(readers)
}

impl Versions {
    /// A deployer that published the opening configuration alone, as version 0, and so many readers. No reader is there
    /// yet, so it waits for nobody.
    pub fn new<R: Wait>(
        rt: &R,
        alloc: Global,
        first: Config,
        readers: u32,
    ) -> Result<(Deployer, Vec<VersionReader>), Memory>
        requires { (0 < readers) × (readers ≤ 1024) }
        ensures opening { IfOk result (λ made. made.0.notices ≡ Put first ∷ []) }
        ensures readers { IfOk result (λ made. length made.1.items ≡ readers) }
        ensures opens { IfOk result (λ made. All (Opens made.0) made.1.items) }
    {
        let mut deployer = Deployer::open(rt, alloc, first, readers as usize)?;
        match readers_of(alloc, &mut deployer, readers) {
            Ok(readers) => Ok((deployer, readers)),
            Err(Memory) => {
                deployer.end(rt);
                Err(Memory)
            }
        }
    }
}
