//! The catalogs of one database, as lists of rows.
ghost use Rattle.std.specs.Prelude.{◌≡◌};

use crate::rows::{
    AccessMethodRow, AttributeRow, ClassRow, CollationRow, DatabaseRow, IndexRow, NamespaceRow,
    OperatorClassRow, TypeRow,
};
use std::marker::Model;

/// The rows of each catalog of a database, in the order of their files.
#[derive(Drop)]
pub struct CatalogRows {
    pub classes: Vec<ClassRow>,
    pub attributes: Vec<AttributeRow>,
    pub types: Vec<TypeRow>,
    pub indexes: Vec<IndexRow>,
    pub namespaces: Vec<NamespaceRow>,
    pub operator_classes: Vec<OperatorClassRow>,
    pub access_methods: Vec<AccessMethodRow>,
    pub collations: Vec<CollationRow>,
}

/// The catalogs of one database: its own row of `pg_database`, and the rows of the others. Contracts see the lists.
#[derive(Drop)]
pub struct Catalogs {
    database: DatabaseRow,
    rows: CatalogRows,
}

impl Model for Catalogs {
    ghost use Rattle.catalog_rows.specs.Lists.{CatalogLists};

    ghost Value = { CatalogLists };

    ghost view = { λ c. record {
      database = c.database;
      classes = c.rows.classes.items;
      attributes = c.rows.attributes.items;
      types = c.rows.types.items;
      indexes = c.rows.indexes.items;
      namespaces = c.rows.namespaces.items;
      operator_classes = c.rows.operator_classes.items;
      access_methods = c.rows.access_methods.items;
      collations = c.rows.collations.items;
    } };
}

impl Catalogs {
    /// The catalogs that these rows are.
    pub fn new(database: DatabaseRow, rows: CatalogRows) -> Catalogs
        ensures { result ≡ record {
          database = database;
          classes = rows.classes.items;
          attributes = rows.attributes.items;
          types = rows.types.items;
          indexes = rows.indexes.items;
          namespaces = rows.namespaces.items;
          operator_classes = rows.operator_classes.items;
          access_methods = rows.access_methods.items;
          collations = rows.collations.items;
        } }
    {
        Catalogs { database, rows }
    }

    /// The database's own row.
    pub fn database(&self) -> &DatabaseRow
        ensures { result.now ≡ self.now.database }
    {
        &self.database
    }

    /// The rows of `pg_class`.
    pub fn classes(&self) -> &[ClassRow]
        ensures { result.now ≡ self.now.classes }
    {
        &self.rows.classes
    }

    /// The rows of `pg_attribute`.
    pub fn attributes(&self) -> &[AttributeRow]
        ensures { result.now ≡ self.now.attributes }
    {
        &self.rows.attributes
    }

    /// The rows of `pg_type`.
    pub fn types(&self) -> &[TypeRow]
        ensures { result.now ≡ self.now.types }
    {
        &self.rows.types
    }

    /// The rows of `pg_index`.
    pub fn indexes(&self) -> &[IndexRow]
        ensures { result.now ≡ self.now.indexes }
    {
        &self.rows.indexes
    }

    /// The rows of `pg_namespace`.
    pub fn namespaces(&self) -> &[NamespaceRow]
        ensures { result.now ≡ self.now.namespaces }
    {
        &self.rows.namespaces
    }

    /// The rows of `pg_opclass`.
    pub fn operator_classes(&self) -> &[OperatorClassRow]
        ensures { result.now ≡ self.now.operator_classes }
    {
        &self.rows.operator_classes
    }

    /// The rows of `pg_am`.
    pub fn access_methods(&self) -> &[AccessMethodRow]
        ensures { result.now ≡ self.now.access_methods }
    {
        &self.rows.access_methods
    }

    /// The rows of `pg_collation`.
    pub fn collations(&self) -> &[CollationRow]
        ensures { result.now ≡ self.now.collations }
    {
        &self.rows.collations
    }
}
