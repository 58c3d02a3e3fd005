use crate::entries::HostEntry;
use crate::link_tables::LinkTables;
use crate::switch_tables::SwitchTables;

/// What the tables of a topology file say.
#[derive(Debug, Drop)]
pub(crate) struct FileEntries {
    pub(crate) switches: SwitchTables,
    pub(crate) links: LinkTables,
    pub(crate) hosts: Vec<HostEntry>,
}
