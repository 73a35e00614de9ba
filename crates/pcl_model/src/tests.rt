ghost use Rattle.std.specs.Prelude.{◌≡◌, IsTrue};
ghost use Rattle.std.specs.List.{list_all};
ghost use Rattle.run_rules.specs.Running.{step_fits, is_below_last};
ghost use Rattle.pcl_model.specs.Serial.{script_fits};

use crate::{ApplyFault, Base, SerialFault, judge_serial};
use pcl_base::{Config, Items, Page, PageNo, Script, Step, TxId};
use std::alloc::{AllocError, Global};
use std::process::Abort;
use std::test::Fail;

fn bytes_of(alloc: Global, bytes: &[u8]) -> Result<Page, AllocError> {
    Ok(Items::of(Vec::from_slice(alloc, bytes)?))
}

fn read(alloc: Global, page: PageNo, bytes: &[u8]) -> Result<Step, AllocError> {
    Ok(Step::Read {
        page,
        bytes: bytes_of(alloc, bytes)?,
    })
}

fn write(alloc: Global, page: PageNo, place: u32, bytes: &[u8]) -> Result<Step, AllocError> {
    Ok(Step::Write {
        page,
        place,
        bytes: bytes_of(alloc, bytes)?,
    })
}

fn script(serial: u32, steps: Vec<Step>) -> Script {
    Script {
        tx: TxId {
            node: 0,
            born: 1,
            serial,
        },
        steps: Items::of(steps),
    }
}

/// Writes two bytes of page 0 and reads them.
fn first(alloc: Global) -> Result<Script, AllocError> {
    Ok(script(
        1,
        vec![in alloc;
            write(alloc, 0, 2, b"\xbe\xef")?,
            read(alloc, 0, b"\0\0\xbe\xef\0\0\0\0")?,
        ]?,
    ))
}

/// Reads and writes page 1, and then reads page 0.
fn second(alloc: Global, page: &[u8]) -> Result<Script, AllocError> {
    Ok(script(
        2,
        vec![in alloc;
            read(alloc, 1, &[0; 8])?,
            write(alloc, 1, 0, b"\x01")?,
            read(alloc, 0, page)?,
        ]?,
    ))
}

fn fits(pages: u32, size: u32, step: &Step) -> bool
    ensures { result ≡ step_fits pages size step.now }
{
    match step {
        Step::Read { page, .. } => *page < pages,
        Step::Write { page, place, bytes } => {
            *page < pages && *place as u64 + bytes.as_slice().len() as u64 <= size as u64
        }
    }
}

fn all_fit(config: &Config, script: &Script) -> bool
    ensures { result ≡ script_fits config.now script.now }
{
    for step in script.steps.as_slice() {
        if !fits(config.pages(), config.size(), step) {
            return false;
        }
    }
    true
}

fn is_below(base: &Base, config: &Config, step: &Step) -> bool
    requires sizes { base.now.sizes ≡ config.now }
    requires fits { IsTrue (step_fits config.now.pages config.now.size step.now) }
    ensures { result ≡ is_below_last base.now.pages step.now }
{
    match step {
        Step::Read { .. } => true,
        Step::Write { page, .. } => base.version(*page) < u64::MAX,
    }
}

fn all_below(base: &Base, config: &Config, script: &Script) -> bool
    requires sizes { base.now.sizes ≡ config.now }
    requires fits { IsTrue (script_fits config.now script.now) }
    ensures { result ≡ list_all (is_below_last base.now.pages) script.now.steps }
{
    for step in script.steps.as_slice() {
        if !is_below(base, config, step) {
            return false;
        }
    }
    true
}

fn applied(
    rt: &impl Abort,
    config: &Config,
    base: &mut Base,
    script: &Script,
) -> Result<(), ApplyFault>
    requires { base.old.sizes ≡ config.now }
    ensures { base.new.sizes ≡ config.now }
{
    assert!(rt; all_fit(config, script));
    assert!(rt; all_below(base, config, script));
    base.apply(script)
}

#[test]
fn a_script_is_kept_or_leaves_no_trace(rt: HostRuntime) -> Result<(), Fail> {
    let alloc = rt.alloc();
    let config = Config::new(1, 2, 8, 2)?;
    let mut base = Base::open(alloc, &config)?;
    assert_eq!(rt; applied(&rt, &config, &mut base, &first(alloc)?), Ok(()));
    assert_eq!(rt; base.version(0), 1);
    assert_eq!(rt; base.page(0), b"\0\0\xbe\xef\0\0\0\0".as_slice());

    let expected = bytes_of(alloc, b"\0\0\xbe\xef\0\0\0\0")?;
    let fault = ApplyFault::Differs { place: 2, expected };
    assert_eq!(rt;
        applied(&rt, &config, &mut base, &second(alloc, &[0; 8])?),
        Err(fault)
    );
    assert_eq!(rt; base.version(1), 0);
    assert_eq!(rt; base.page(1), [0; 8].as_slice());
    Ok(())
}

#[test]
fn scripts_run_one_after_the_other(rt: HostRuntime) -> Result<(), Fail> {
    let alloc = rt.alloc();
    let config = Config::new(1, 2, 8, 2)?;
    let good = [first(alloc)?, second(alloc, b"\0\0\xbe\xef\0\0\0\0")?];
    assert!(rt; all_fit(&config, &good[0]) && all_fit(&config, &good[1]));
    let base = judge_serial(alloc, &config, &good)?;
    assert_eq!(rt; base.version(1), 1);
    assert_eq!(rt; base.page(1), b"\x01\0\0\0\0\0\0\0".as_slice());

    let bad = [first(alloc)?, second(alloc, &[0; 8])?];
    assert!(rt; all_fit(&config, &bad[0]) && all_fit(&config, &bad[1]));
    let fault = SerialFault::Differs {
        script: 1,
        place: 2,
    };
    assert_eq!(rt; judge_serial(alloc, &config, &bad).err(), Some(fault));
    Ok(())
}
