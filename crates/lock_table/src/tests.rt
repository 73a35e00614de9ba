use crate::Table;
use pcl_base::{Config, Mode, TxId};
use std::test::Fail;

const READER: TxId = TxId {
    node: 1,
    born: 1,
    serial: 1,
};

#[test]
fn entries_come_and_go(rt: HostRuntime) -> Result<(), Fail> {
    let config = Config::new(2, 10, 64, 8)?;
    assert_eq!(rt; config.nodes(), 2);
    assert_eq!(rt; config.pages(), 10);
    let mut table = Table::open(rt.alloc(), &config, 1, false)?;
    table.entry(5)?.reported(READER, Mode::Shared)?;
    table.entry(3)?.set_version(8);
    assert_eq!(rt; table.pages()?.as_slice(), [3, 5].as_slice());
    assert_eq!(rt; table.version(3), 8);
    let copy = table.copy()?;
    table.tidy(3);
    assert_eq!(rt; table.pages()?.as_slice(), [5].as_slice());
    assert_eq!(rt; copy.pages()?.len(), 2);
    Ok(())
}
