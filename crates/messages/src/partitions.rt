ghost use Rattle.std.specs.Prelude.{◌≡◌};
ghost use Rattle.text_rules.specs.MessageBytes.{IsMessage, partition_of};

use pcl_base::{Body, Config, Message, NodeNo};

/// The partition that a message of the grammar speaks of: that of its page, or that which a report
/// names.
pub fn partition(config: &Config, m: &Message) -> NodeNo
    requires { IsMessage config.now m.now }
    ensures { result ≡ partition_of config.now m.now.body }
{
    match &m.body {
        Body::Request(r) => config.partition(r.page),
        Body::Grant(g) => config.partition(g.page),
        Body::Release(r) => config.partition(r.page),
        Body::Revoke { page } => config.partition(*page),
        Body::Return(r) => config.partition(r.page),
        Body::Report(r) => r.partition,
    }
}
