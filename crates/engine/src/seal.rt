// "Seal. After every transaction is Complete."
ghost use Rattle.std.specs.Prelude.{◌≡◌};
ghost use Rattle.engine.specs.Seal.{seal_of};

use crate::{State, Stepped, lent};
use versions::Version;

impl State {
    // "Each record with a newest version takes its contents. The newest-version and version tables are emptied as at
    // opening, results and outcomes stay until the next opening".
    pub fn seal(self, records: &mut [u64], newest: &mut [u16], versions: &mut [Version]) -> Stepped
        ensures { (result ≡ (seal_of self records.old newest.old versions.old).stepped)
            × ((records.new
            ≡ (seal_of self records.old newest.old versions.old).records)
            × ((newest.new
            ≡ (seal_of self records.old newest.old versions.old).newest)
            × (versions.new
            ≡ (seal_of self records.old newest.old versions.old).versions))) }
    {
        let numbers = lent::numbers_of(self);
        let counted = lent::seal(&self.rows, &self.crew, numbers, records, newest, versions);
        counted.joined(self.rows, self.crew)
    }
}
